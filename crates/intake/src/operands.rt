// Operands of a statement: in range, and what they are. A range is a comparison with its limit, as its definition says.
ghost use Rattle.std.specs.Prelude.{◌≡◌};
ghost use Rattle.common.specs.Refusals.{answered, numbered};
ghost use Rattle.intake.specs.Hearing.{bit_numbered, operand_of, item_of, timely_of, vote_of};

use common::{EPOCHS, ROUNDS, Refusal};
use entry::Entry;
use replica::Replica;
use std::cmp::Ordering;

// The bit that an operand is; a type of our own for it, to have a conversion, is no plainer.
pub fn bit_read(b: u8) -> Result<bool, Refusal>
    ensures { numbered result ≡ operand_of (bit_numbered b) }
{
    match b {
        0 => Ok(false),
        1 => Ok(true),
        _ => Err(Refusal::Range),
    }
}

// The entry for a queue's slot.
pub fn item_in<K: Entry>(replica: &Replica, queue: u8, slot: u8, item: &[u8]) -> Result<K, Refusal>
    ensures { answered K.bytes result ≡ item_of K.valid replica.now queue slot item.now }
{
    if queue >= replica.set.n || slot >= replica.set.w {
        return Err(Refusal::Range);
    }
    K::read(item).ok_or(Refusal::Entry)
}

// Whether a vote is for a round of the current epoch.
pub fn timely(replica: &Replica, epoch: u16, round: u8) -> Result<(), Refusal>
    ensures { numbered result ≡ timely_of replica.now epoch round }
{
    if round >= ROUNDS || epoch >= EPOCHS {
        return Err(Refusal::Range);
    }
    match epoch.cmp(&replica.epoch) {
        Ordering::Less => Err(Refusal::Past),
        Ordering::Equal => Ok(()),
        Ordering::Greater => Err(Refusal::Future),
    }
}

// A vote's operand, where it was one and the vote is for a round of the current epoch.
pub fn vote<T: Copy>(
    replica: &Replica,
    epoch: u16,
    round: u8,
    operand: Result<T, Refusal>,
) -> Result<T, Refusal>
    ensures { numbered result ≡ vote_of replica.now epoch round (numbered operand) }
{
    let operand = operand?;
    timely(replica, epoch, round)?;
    Ok(operand)
}
