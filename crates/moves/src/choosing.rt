// Choosing a move: the first of the ten turns that applies.
ghost use Rattle.std.specs.Prelude.{◌≡◌, ◌<◌, IfSome};
ghost use Rattle.std.specs.Option.{option_map};
ghost use Rattle.common.specs.Limits.{epochs};
ghost use Rattle.theory.specs.Calls.{turn};
ghost use Rattle.replica.specs.declared.state.Stage.TheVariants.{Open};
ghost use Rattle.replica.specs.Fitting.{store_of, plan_of, box_of};
ghost use Rattle.replica.specs.Store.{Store};
ghost use Rattle.moves.specs.Moves.{move_of};
ghost use Rattle.moves.specs.Ranges.{Allowed};
ghost use Rattle.moves.specs.Trials.{by_entries, by_rounds};

use crate::moves::Move;
use coin::Coin;
use common::EPOCHS;
use dues::{
    close_due, confirm_due, decided, echo_due, follow_due, have_due, page_due, ready_due,
    second_due, seen_due,
};
use entry::Entry;
use replica::{Fitted, Replica, Stage};

// Turns 1 to 3.
fn by_entries<K: Entry>(lent: &Fitted<'_, '_, K>) -> Option<Move<K>>
    ensures allowed { IfSome result (Allowed lent.now.replica.now) }
    ensures value { (coin : _) → option_map (move_of K.bytes lent.now.replica.now (store_of lent.now)) result ≡ by_entries lent.now.replica.now (store_of lent.now) coin }
{
    if let Some(due) = echo_due(lent) {
        return Some(Move::Echo(due));
    }
    if let Some(due) = ready_due(lent) {
        return Some(Move::Ready(due));
    }
    let due = have_due(lent)?;
    Some(Move::Keep(due))
}

// Turns 7 to 10, in an open epoch.
fn by_rounds<K: Entry, C: Coin>(
    replica: &Replica,
    round: u8,
    closed: bool,
    coin: &mut C,
) -> Option<Move<K>>
    requires week { replica.now.epoch < epochs }
    requires open { replica.now.stage ≡ Open round closed }
    ensures allowed { IfSome result (Allowed replica.now) }
    ensures value { (t : Store) → option_map (move_of K.bytes replica.now t) result ≡ by_rounds replica.now t (C.meaning coin.old) }
    ensures coin { C.meaning coin.new ≡ C.meaning coin.old }
{
    if let Some((round, bit)) = second_due(replica, round) {
        return Some(Move::Second { round, bit });
    }
    if let Some(bit) = seen_due(replica, round) {
        return Some(Move::See { round, bit });
    }
    if let Some(set) = confirm_due(replica, round) {
        return Some(Move::Confirm { round, set });
    }
    if closed {
        return None;
    }
    let closing = close_due(replica, round, coin)?;
    Some(Move::Close { round, closing })
}

// The first of the ten that applies. Nothing is changed, but the coin is tossed where Close needs it.
pub fn choose<K: Entry, C: Coin>(lent: &Fitted<'_, '_, K>, coin: &mut C) -> Option<Move<K>>
    ensures allowed { IfSome result (Allowed lent.now.replica.now) }
    ensures value { option_map (move_of K.bytes lent.now.replica.now (store_of lent.now)) result ≡ turn (plan_of lent.now) (box_of lent.now) (C.meaning coin.old) }
    ensures coin { C.meaning coin.new ≡ C.meaning coin.old }
{
    if let Some(first) = by_entries(lent) {
        return Some(first);
    }
    let replica = lent.replica;
    if replica.epoch >= EPOCHS {
        return None;
    }
    if let Some(bit) = follow_due(replica) {
        return Some(Move::Follow(bit));
    }
    match replica.stage {
        Stage::Awaiting => {
            let (slot, item) = page_due(lent)?;
            Some(Move::Write { slot, item })
        }
        Stage::Unopened => {
            let bit = decided(replica)?;
            Some(Move::Decide(bit))
        }
        Stage::Open { round, closed } => match decided(replica) {
            Some(bit) => Some(Move::Decide(bit)),
            None => by_rounds(replica, round, closed, coin),
        },
    }
}
