// The command that a script begins with, and what is behind it.
ghost use Rattle.std.specs.Prelude.{◌≡◌};
ghost use Rattle.std.specs.Option.{option_map};
ghost use Rattle.serving.specs.Serves.{call_in};
ghost use Rattle.script.specs.Commands.{command_of, boxed, submit_in, hear_in, call_from, first_of};

use crate::command::Command;
use entry::Entry;
use serving::Call;
use wire::next;

// The number of a box, if there is such a box.
fn boxed(bytes: &[u8], boxes: usize) -> Option<(u8, &[u8])>
    ensures { option_map (λ x. (x.0, x.1.now)) result ≡ boxed boxes bytes.now }
{
    let (at, rest) = bytes.split_first()?;
    (usize::from(*at) < boxes).then_some((*at, rest))
}

// An entry's bytes.
fn submit_in<K: Entry>(bytes: &[u8]) -> Option<(Call<'_>, &[u8])>
    ensures { option_map (λ x. (call_in x.0, x.1.now)) result ≡ submit_in K.WIDTH bytes.now }
{
    let entry = bytes.get(..K::WIDTH)?;
    Some((Call::Submit(entry), &bytes[K::WIDTH..]))
}

// A sender and a statement.
fn hear_in<K: Entry>(bytes: &[u8], boxes: usize) -> Option<(Call<'_>, &[u8])>
    ensures { option_map (λ x. (call_in x.0, x.1.now)) result ≡ hear_in K.WIDTH boxes bytes.now }
{
    let (sender, rest) = boxed(bytes, boxes)?;
    let Ok(Some(statement)) = next::<K>(rest, 0) else {
        return None;
    };
    let call = Call::Hear {
        sender,
        bytes: statement,
    };
    Some((call, &rest[statement.len()..]))
}

// What a letter asks of a box.
fn call_from<K: Entry>(letter: u8, bytes: &[u8], boxes: usize) -> Option<(Call<'_>, &[u8])>
    ensures { option_map (λ x. (call_in x.0, x.1.now)) result ≡ call_from K.WIDTH boxes letter bytes.now }
{
    match letter {
        b's' => submit_in::<K>(bytes),
        b'o' => Some((Call::Open, bytes)),
        b'x' => hear_in::<K>(bytes, boxes),
        _ => None,
    }
}

// The command, if the bytes begin with one.
pub fn first<K: Entry>(bytes: &[u8], boxes: usize) -> Option<(Command<'_>, &[u8])>
    ensures { option_map (λ x. (command_of x.0, x.1.now)) result ≡ first_of K.WIDTH boxes bytes.now }
{
    let (letter, rest) = bytes.split_first()?;
    if *letter == b'q' {
        return Some((Command::Settle, rest));
    }
    let (at, rest) = boxed(rest, boxes)?;
    if *letter == b'p' {
        return Some((Command::Print { at }, rest));
    }
    let (call, rest) = call_from::<K>(*letter, rest, boxes)?;
    Some((Command::Call { at, call }, rest))
}
