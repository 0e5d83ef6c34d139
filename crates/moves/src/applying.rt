// Doing a move.
ghost use Rattle.std.specs.Prelude.{◌≡◌, ◌<◌, true};
ghost use Rattle.common.specs.Limits.{epochs, rounds};
ghost use Rattle.theory.specs.Calls.{ranged, deciding, writing, closing as to_close};
ghost use Rattle.replica.specs.Claims.{claim_of};
ghost use Rattle.replica.specs.Holding.{held_of};
ghost use Rattle.replica.specs.Store.{store, fits};
ghost use Rattle.replica.specs.View.{plan, box};
ghost use Rattle.turns.specs.Stepping.{steps_of};
ghost use Rattle.moves.specs.Moves.{move_of};
ghost use Rattle.moves.specs.Ranges.{Allowed};

use crate::leaving::{file, leave};
use crate::moves::Move;
use common::ROUNDS;
use dues::{Closing, Due, queue_of};
use entry::Entry;
use replica::{Claim, Page, Replica, Stage, Tables};

// States something.
pub fn state<K: Entry>(replica: &mut Replica, tables: &mut Tables<'_, K>, claim: Claim<K>)
    requires lent { fits replica.old.set.n replica.old.set.w (store K.bytes tables.old) ≡ true }
    requires ranged { ranged (plan replica.old) (box replica.old (store K.bytes tables.old)) (claim_of K.bytes claim) ≡ true }
    ensures { (replica.new, store K.bytes tables.new) ≡ held_of replica.old (store K.bytes tables.old) replica.old.set.me (claim_of K.bytes claim) }
{
    replica.hold(tables, replica.set.me, claim);
}

// Decides the epoch: bit 1 makes it await its page, bit 0 leaves it.
fn decide<K: Entry>(replica: &mut Replica, tables: &Tables<'_, K>, bit: bool)
    requires week { replica.old.epoch < epochs }
    ensures { (replica.new, store K.bytes tables.now) ≡ steps_of (deciding (plan replica.old) (box replica.old (store K.bytes tables.now)) bit) replica.old (store K.bytes tables.now) }
{
    if bit {
        replica.stage = Stage::Awaiting;
    } else {
        leave(replica);
    }
}

// Closes a round: the next begins with a bit, or the last is closed for good; and a finish is stated, if there is to be one.
fn close<K: Entry>(replica: &mut Replica, tables: &mut Tables<'_, K>, round: u8, closing: Closing)
    requires lent { fits replica.old.set.n replica.old.set.w (store K.bytes tables.old) ≡ true }
    requires week { replica.old.epoch < epochs }
    requires inside { round < rounds }
    ensures { (replica.new, store K.bytes tables.new) ≡ steps_of (to_close (plan replica.old) (box replica.old (store K.bytes tables.old)) round (closing.bit, closing.finish)) replica.old (store K.bytes tables.old) }
{
    let epoch = replica.epoch;
    let bit = closing.bit;
    let next = round + 1;
    if next < ROUNDS {
        replica.stage = Stage::Open {
            round: next,
            closed: false,
        };
        let round = next;
        state(replica, tables, Claim::Value { epoch, round, bit });
    } else {
        replica.stage = Stage::Open {
            round,
            closed: true,
        };
    }
    if closing.finish {
        state(replica, tables, Claim::Finish { epoch, bit });
    }
}

// Writes the page that the epoch awaits, and leaves it.
fn write<K: Entry>(replica: &mut Replica, tables: &mut Tables<'_, K>, slot: u8, item: K)
    requires week { replica.old.epoch < epochs }
    requires inside { slot < replica.old.set.w }
    ensures { (replica.new, store K.bytes tables.new) ≡ steps_of (writing (plan replica.old) (box replica.old (store K.bytes tables.old)) (slot, K.bytes item)) replica.old (store K.bytes tables.old) }
{
    let epoch = replica.epoch;
    let queue = queue_of(&replica.set, epoch);
    let page = Page {
        epoch,
        queue,
        slot,
        item,
    };
    file(replica, tables, page);
    leave(replica);
}

// Does a move.
pub fn apply<K: Entry>(replica: &mut Replica, tables: &mut Tables<'_, K>, next: Move<K>)
    requires lent { fits replica.old.set.n replica.old.set.w (store K.bytes tables.old) ≡ true }
    requires allowed { Allowed replica.old next }
    ensures { (replica.new, store K.bytes tables.new) ≡ steps_of (move_of K.bytes replica.old (store K.bytes tables.old) next).1 replica.old (store K.bytes tables.old) }
{
    let epoch = replica.epoch;
    match next {
        Move::Echo(Due { queue, slot, item }) => {
            state(replica, tables, Claim::Echo { queue, slot, item })
        }
        Move::Ready(Due { queue, slot, item }) => {
            state(replica, tables, Claim::Ready { queue, slot, item })
        }
        Move::Keep(Due { queue, slot, item }) => {
            state(replica, tables, Claim::Have { queue, slot, item })
        }
        Move::Follow(bit) => state(replica, tables, Claim::Finish { epoch, bit }),
        Move::Decide(bit) => decide(replica, tables, bit),
        Move::Write { slot, item } => write(replica, tables, slot, item),
        Move::Second { round, bit } => state(replica, tables, Claim::Value { epoch, round, bit }),
        Move::See { round, bit } => state(replica, tables, Claim::Seen { epoch, round, bit }),
        Move::Confirm { round, set } => {
            state(replica, tables, Claim::Confirm { epoch, round, set })
        }
        Move::Close { round, closing } => close(replica, tables, round, closing),
    }
}
