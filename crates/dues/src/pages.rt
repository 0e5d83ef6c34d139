// Turn 6, which goes by what is kept and by the book.
ghost use Rattle.std.specs.Prelude.{◌≡◌, ◌%◌, ◌<◌, IfSome};
ghost use Rattle.std.specs.Option.{option_map};
ghost use Rattle.theory.specs.Turns.{kept_at, writes};
ghost use Rattle.replica.specs.Fitting.{plan_of, box_of};

use entry::Entry;
use replica::{Fitted, Set};

// The queue that an epoch concerns.
pub fn queue_of(set: &Set, epoch: u16) -> u8
    ensures { result ≡ epoch % set.now.n }
{
    (epoch % u16::from(set.n)) as u8
}

// The entry that is kept in a queue's slot.
fn kept<K: Entry>(lent: &Fitted<'_, '_, K>, queue: u8, slot: u8) -> Option<K>
    requires low { queue < lent.now.replica.now.set.n }
    requires inside { slot < lent.now.replica.now.set.w }
    ensures { option_map K.bytes result ≡ kept_at (plan_of lent.now) (box_of lent.now) queue slot }
{
    let set = &lent.replica.set;
    let at = set.grid().place(queue, slot, set.me);
    lent.tables.haves.get(at)
}

// The candidate of the epoch's queue: up from its head, past kept slots whose entry is in the book, the slot that is reached, if it
// is kept.
pub fn candidate<K: Entry>(lent: &Fitted<'_, '_, K>) -> Option<u8>
    ensures { result ≡ option_map (λ p. p.0) (writes (plan_of lent.now) (box_of lent.now)) }
{
    let replica = lent.replica;
    let queue = queue_of(&replica.set, replica.epoch);
    for slot in replica.heads[usize::from(queue)]..replica.set.w {
        let item = kept(lent, queue, slot)?;
        if !replica.booked(lent.tables, &item) {
            return Some(slot);
        }
    }
    None
}

// Turn 6, Write: the slot and the entry of the next page.
pub fn page_due<K: Entry>(lent: &Fitted<'_, '_, K>) -> Option<(u8, K)>
    ensures within { IfSome result (λ p. p.0 < lent.now.replica.now.set.w) }
    ensures value { option_map (λ p. (p.0, K.bytes p.1)) result ≡ writes (plan_of lent.now) (box_of lent.now) }
{
    let slot = candidate(lent)?;
    let queue = queue_of(&lent.replica.set, lent.replica.epoch);
    let item = kept(lent, queue, slot)?;
    Some((slot, item))
}
