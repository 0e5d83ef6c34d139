// The rounds of the current epoch.
ghost use Rattle.std.specs.Prelude.{◌≡◌, ◌+◌, ◌<◌, ◌≤◌, false, true, not, ◌&&◌, nat_le, IfSome, slice_index_or};
ghost use Rattle.std.specs.Option.{option_map};
ghost use Rattle.common.specs.Limits.{epochs, rounds};
ghost use Rattle.theory.specs.Count.{count};
ghost use Rattle.theory.specs.Statement.{value, seen, confirm};
ghost use Rattle.theory.specs.Turns.{second, sees, confirms, closes, outcome, set_of, in_values};
ghost use Rattle.votes.specs.Sets.{bits_of};
ghost use Rattle.votes.specs.Votes.{no_round, marks};
ghost use Rattle.replica.specs.Store.{Store};
ghost use Rattle.replica.specs.View.{plan, box};
ghost use Rattle.dues.specs.Seconds.{second_in};

use crate::lowest::lowest;
use crate::thresholds::{all_honest, most, some_honest};
use coin::Coin;
use replica::{Bits, Replica, Set};
use votes::{Marks, Round};

// How a round is closed: the next bit, and whether it is finished with.
#[derive(Clone, Copy)]
pub struct Closing {
    pub bit: bool,
    pub finish: bool,
}

// The votes of a round, which are none behind the last round.
fn votes_in(replica: &Replica, round: u8) -> Round
    ensures value { result ≡ slice_index_or replica.now.votes.rounds round no_round }
    ensures past { rounds ≤ round → result ≡ no_round }
{
    let none = Marks::none();
    let rounds = &replica.votes.rounds;
    rounds.get(usize::from(round)).copied().unwrap_or(Round {
        values: none,
        seens: none,
        confirms: none,
    })
}

// The bits in the values of a round.
fn values_in(replica: &Replica, round: u8) -> Option<Bits>
    requires week { replica.now.epoch < epochs }
    ensures within { IfSome result (λ _. round < rounds) }
    ensures value { (t : Store) → option_map bits_of result ≡ set_of (in_values (plan replica.now) (box replica.now t) round false) (in_values (plan replica.now) (box replica.now t) round true) }
{
    let set = &replica.set;
    let values = votes_in(replica, round).values;
    let enough = most(set);
    Bits::of(
        values.value_count(false, set.n) >= enough,
        values.value_count(true, set.n) >= enough,
    )
}

// Whether enough state a bit, and this replica does not.
fn is_wanted(set: &Set, values: Marks, bit: bool) -> bool
    ensures { result ≡ (not (marks values bit set.now.me) && nat_le (set.now.f + 1) (count set.now.n (marks values bit))) }
{
    !values.has(bit, set.me) && values.value_count(bit, set.n) >= some_honest(set)
}

// The lowest such bit of a round.
fn second_at(replica: &Replica, round: u8) -> Option<bool>
    requires week { replica.now.epoch < epochs }
    ensures within { IfSome result (λ _. round < rounds) }
    ensures value { (t : Store) → option_map (value replica.now.epoch round) result ≡ second_in (plan replica.now) (box replica.now t) round }
{
    let set = &replica.set;
    let values = votes_in(replica, round).values;
    lowest(Bits::of(is_wanted(set, values, false), is_wanted(set, values, true)))
}

// Turn 7, Second value: the round and the bit.
pub fn second_due(replica: &Replica, round: u8) -> Option<(u8, bool)>
    requires week { replica.now.epoch < epochs }
    ensures within { IfSome result (λ p. p.0 < rounds) }
    ensures value { (t : Store) → option_map (λ p. value replica.now.epoch p.0 p.1) result ≡ second (plan replica.now) (box replica.now t) round }
{
    for k in 0..=round {
        if let Some(bit) = second_at(replica, k) {
            return Some((k, bit));
        }
    }
    None
}

// Turn 8, Seen: the bit.
pub fn seen_due(replica: &Replica, round: u8) -> Option<bool>
    requires week { replica.now.epoch < epochs }
    ensures within { IfSome result (λ _. round < rounds) }
    ensures value { (t : Store) → option_map (seen replica.now.epoch round) result ≡ sees (plan replica.now) (box replica.now t) round }
{
    let votes = votes_in(replica, round);
    if votes.seens.bit(replica.set.me).is_some() {
        return None;
    }
    lowest(values_in(replica, round))
}

// Turn 9, Confirm: the set.
pub fn confirm_due(replica: &Replica, round: u8) -> Option<Bits>
    requires week { replica.now.epoch < epochs }
    ensures within { IfSome result (λ _. round < rounds) }
    ensures value { (t : Store) → option_map (λ u. confirm replica.now.epoch round (bits_of u)) result ≡ confirms (plan replica.now) (box replica.now t) round }
{
    let set = &replica.set;
    let votes = votes_in(replica, round);
    votes.seens.bit(set.me)?;
    if votes.confirms.set(set.me).is_some() {
        return None;
    }
    let values = values_in(replica, round);
    if votes.seens.seen_within(values, set.n) < all_honest(set) {
        return None;
    }
    values
}

// How a round is closed, by the union of the sets, the toss, and whether no finish is stated.
fn outcome(joined: Option<Bits>, toss: bool, free: bool) -> Closing
    ensures { (result.bit, result.finish) ≡ outcome (option_map bits_of joined) toss free }
{
    match joined {
        Some(Bits::Only(bit)) => Closing {
            bit,
            finish: bit == toss && free,
        },
        _ => Closing {
            bit: toss,
            finish: false,
        },
    }
}

// Turn 10, Close, with the coin's toss for the round.
pub fn close_due<C: Coin>(replica: &Replica, round: u8, coin: &mut C) -> Option<Closing>
    requires week { replica.now.epoch < epochs }
    ensures within { IfSome result (λ _. round < rounds) }
    ensures value { (t : Store) → option_map (λ c. (c.bit, c.finish)) result ≡ closes (plan replica.now) (box replica.now t) (C.meaning coin.old) round }
    ensures coin { C.meaning coin.new ≡ C.meaning coin.old }
{
    let set = &replica.set;
    let votes = votes_in(replica, round);
    votes.confirms.set(set.me)?;
    let values = values_in(replica, round);
    if votes.confirms.confirmed_within(values, set.n) < all_honest(set) {
        return None;
    }
    let toss = coin.toss(replica.epoch, round);
    let joined = votes.confirms.union(values, set.n);
    let free = replica.votes.finish.bit(set.me).is_none();
    Some(outcome(joined, toss, free))
}
