ghost use Rattle.std.specs.Prelude.{◌≡◌, is_none, position};
ghost use Rattle.common.specs.Refusals.{answered, numbered};
ghost use Rattle.replica.specs.Store.{store};
ghost use Rattle.replica.specs.Claims.{claim_of};
ghost use Rattle.intake.specs.Submitting.{unused_of, offer_of, submit_of, Submits};

use common::Refusal;
use entry::Entry;
use replica::{Claim, Fitted, Replica, Tables};
use wire::measure;

// Where the first free cell of a row lies.
fn first_free<T>(row: &[Option<T>]) -> Option<usize>
    ensures { result ≡ position is_none row.now }
{
    row.iter().position(|cell| cell.is_none())
}

// The lowest slot of the own queue without an own send.
fn unused<K: Entry>(lent: &Fitted<'_, '_, K>) -> Option<u8>
    ensures { result ≡ unused_of lent.now.replica.now (store K.bytes lent.now.tables.now) }
{
    let set = lent.replica.set;
    let own = set.grid().slot_place(set.me, 0);
    let slot = first_free(lent.tables.sends.row(own, usize::from(set.w)))?;
    Some(slot as u8)
}

// The send that the bytes of an entry become.
fn offer<K: Entry>(lent: &Fitted<'_, '_, K>, s: &[u8]) -> Result<Claim<K>, Refusal>
    ensures { answered (claim_of K.bytes) result ≡ offer_of K.WIDTH K.valid lent.now.replica.now (store K.bytes lent.now.tables.now) s.now }
{
    measure(s, K::WIDTH)?;
    let item = K::read(s).ok_or(Refusal::Entry)?;
    let slot = unused(lent).ok_or(Refusal::Full)?;
    if lent.replica.booked(lent.tables, &item) {
        return Err(Refusal::Booked);
    }
    Ok(Claim::Send { slot, item })
}

// Takes the bytes of an entry for the lowest unused slot of the own queue, and states the send. Its law is answered at
// each exit: the entry's width does not stand in it, so no lemma named here finds it.
pub fn submit<K: Entry>(
    replica: &mut Replica,
    tables: &mut Tables<'_, K>,
    s: &[u8],
) -> Result<(), Refusal>
    ensures value { (numbered result, replica.new, store K.bytes tables.new) ≡ submit_of K.WIDTH K.valid replica.old (store K.bytes tables.old) s.now }
    ensures submits { Submits K.valid replica.old (store K.bytes tables.old) s.now (numbered result) replica.new (store K.bytes tables.new) }
{
    let lent = replica.fitted(tables)?;
    let claim = offer(&lent, s)?;
    replica.hold(tables, replica.set.me, claim);
    Ok(())
}
