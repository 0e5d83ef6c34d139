ghost use Rattle.std.specs.Prelude.{◌≡◌};
ghost use Rattle.common.specs.Refusals.{answered};
ghost use Rattle.wire.specs.Statements.{message_of};
ghost use Rattle.replica.specs.Claims.{claim_of};
ghost use Rattle.intake.specs.Hearing.{admit_of};

use crate::operands::{bit_read, item_in, vote};
use common::Refusal;
use entry::Entry;
use replica::{Bits, Claim, Replica};
use wire::Statement;

// What a sender states, if it is in range, of the kind and of the current epoch.
pub fn admit<K: Entry>(
    replica: &Replica,
    sender: u8,
    statement: Statement<'_>,
) -> Result<Claim<K>, Refusal>
    ensures { answered (claim_of K.bytes) result ≡ admit_of K.valid replica.now sender (message_of statement.entry) }
{
    match statement {
        Statement::Send { slot, item } => {
            let item = item_in(replica, sender, slot, item)?;
            Ok(Claim::Send { slot, item })
        }
        Statement::Echo { queue, slot, item } => {
            let item = item_in(replica, queue, slot, item)?;
            Ok(Claim::Echo { queue, slot, item })
        }
        Statement::Ready { queue, slot, item } => {
            let item = item_in(replica, queue, slot, item)?;
            Ok(Claim::Ready { queue, slot, item })
        }
        Statement::Have { queue, slot, item } => {
            let item = item_in(replica, queue, slot, item)?;
            Ok(Claim::Have { queue, slot, item })
        }
        Statement::Value { epoch, round, bit } => {
            let bit = vote(replica, epoch, round, bit_read(bit))?;
            Ok(Claim::Value { epoch, round, bit })
        }
        Statement::Seen { epoch, round, bit } => {
            let bit = vote(replica, epoch, round, bit_read(bit))?;
            Ok(Claim::Seen { epoch, round, bit })
        }
        Statement::Confirm { epoch, round, set } => {
            let set = vote(replica, epoch, round, Bits::try_from(set))?;
            Ok(Claim::Confirm { epoch, round, set })
        }
        Statement::Finish { epoch, bit } => {
            let bit = vote(replica, epoch, 0, bit_read(bit))?;
            Ok(Claim::Finish { epoch, bit })
        }
    }
}
