ghost use Rattle.std.specs.Prelude.{◌≡◌, ◌∷◌, ◌++◌, take, IfOk, None, Ok};
ghost use Rattle.common.specs.Refusals.{numbered};
ghost use Rattle.wire.specs.Statements.{message_of};
ghost use Rattle.wire.specs.Codec.{misfit, oversize, placed, write_of, parse_of};

use crate::lengths::measure;
use crate::statement::Statement;
use common::Refusal;
use entry::Entry;

impl Statement<'_> {
    // Writes the statement at the front of `out`, and answers how many bytes it has.
    pub fn write<K: Entry>(self, out: &mut [u8]) -> Result<usize, Refusal>
        ensures value { (numbered result, out.new) ≡ write_of K.WIDTH (message_of self.entry) out.old }
        ensures back { IfOk result (λ n. parse_of K.WIDTH (take n out.new) ≡ Ok (message_of self.entry)) }
    {
        let letter = u8::from(self.letter());
        match self {
            Statement::Send { slot, item } => put_item::<K>(&[letter, slot], item, out),
            Statement::Echo { queue, slot, item }
            | Statement::Ready { queue, slot, item }
            | Statement::Have { queue, slot, item } => {
                put_item::<K>(&[letter, queue, slot], item, out)
            }
            Statement::Value { epoch, round, bit } | Statement::Seen { epoch, round, bit } => {
                put_vote(letter, epoch, &[round, bit], out)
            }
            Statement::Confirm { epoch, round, set } => put_vote(letter, epoch, &[round, set], out),
            Statement::Finish { epoch, bit } => put_vote(letter, epoch, &[bit], out),
        }
    }
}

// An entry behind the letter and operands, if it has the kind's width.
fn put_item<K: Entry>(head: &[u8], item: &[u8], out: &mut [u8]) -> Result<usize, Refusal>
    ensures { (numbered result, out.new) ≡ placed (misfit K.WIDTH item.now) (head.now ++ item.now) out.old }
{
    measure(item, K::WIDTH)?;
    put_both(head, item, out)
}

// A vote, if its epoch fits a byte.
fn put_vote(letter: u8, epoch: u16, rest: &[u8], out: &mut [u8]) -> Result<usize, Refusal>
    ensures { (numbered result, out.new) ≡ placed (oversize epoch) (letter ∷ epoch ∷ rest.now) out.old }
{
    let epoch = u8::try_from(epoch).map_err(|_| Refusal::Range)?;
    put_both(&[letter, epoch], rest, out)
}

// Both parts, one behind the other, if they fit.
fn put_both(head: &[u8], tail: &[u8], out: &mut [u8]) -> Result<usize, Refusal>
    ensures { (numbered result, out.new) ≡ placed None (head.now ++ tail.now) out.old }
{
    let at = head.len();
    if out.len() < at || out.len() - at < tail.len() {
        return Err(Refusal::Room);
    }
    let end = at + tail.len();
    out[0..at].copy_from_slice(head);
    out[at..end].copy_from_slice(tail);
    Ok(end)
}
