ghost use Rattle.std.specs.Prelude.{◌≡◌, ℕ, ◌≤◌, List, length, IfOk, None};
ghost use Rattle.common.specs.Refusals.{answered};
ghost use Rattle.wire.specs.Letters.{length_of};
ghost use Rattle.wire.specs.Statements.{message_of};
ghost use Rattle.wire.specs.Codec.{read_of, parse_of, placed, write_of};

use crate::lengths::measure;
use crate::letter::Letter;
use crate::statement::Statement;
use common::Refusal;
use entry::Entry;

// The one statement that the bytes are; its entry stays a part of them.
pub fn parse<K: Entry>(s: &[u8]) -> Result<Statement<'_>, Refusal>
    ensures value { answered message_of result ≡ parse_of K.WIDTH s.now }
    ensures back { IfOk result (λ x. (out : List ℕ) → write_of K.WIDTH (message_of x) out ≡ placed None s.now out) }
{
    let byte = *s.first().ok_or(Refusal::Short)?;
    let letter = Letter::try_from(byte)?;
    measure(s, letter.length::<K>())?;
    Ok(operands::<K>(letter, s))
}

// Reads the bytes behind the letter either way: a queue, a slot and an entry, or an epoch and a round.
fn operands<K: Entry>(letter: Letter, s: &[u8]) -> Statement<'_>
    requires { length_of K.WIDTH letter ≤ length s.now }
    ensures { message_of result ≡ read_of letter s.now }
{
    let (queue, slot, item) = (s[1], s[2], &s[3..]);
    let (epoch, round) = (u16::from(s[1]), s[2]);
    match letter {
        Letter::Send => Statement::Send {
            slot: s[1],
            item: &s[2..],
        },
        Letter::Echo => Statement::Echo { queue, slot, item },
        Letter::Ready => Statement::Ready { queue, slot, item },
        Letter::Have => Statement::Have { queue, slot, item },
        Letter::Value => Statement::Value {
            epoch,
            round,
            bit: s[3],
        },
        Letter::Seen => Statement::Seen {
            epoch,
            round,
            bit: s[3],
        },
        Letter::Confirm => Statement::Confirm {
            epoch,
            round,
            set: s[3],
        },
        Letter::Finish => Statement::Finish { epoch, bit: s[2] },
    }
}
