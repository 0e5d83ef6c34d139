ghost use Rattle.std.specs.Prelude.{◌≡◌};
ghost use Rattle.common.specs.Refusals.{numbered};
ghost use Rattle.replica.specs.Fitting.{store_of};
ghost use Rattle.replica.specs.Store.{store};
ghost use Rattle.turns.specs.Turning.{open_of, turn_of};
ghost use Rattle.moves.specs.Opening.{opening_of};

use crate::applying::{apply, state};
use crate::choosing::choose;
use coin::Coin;
use common::{EPOCHS, Refusal};
use dues::candidate;
use entry::Entry;
use replica::{Claim, Fitted, Replica, Stage, Tables};

// Takes the first of the ten turns that applies, and answers its number, or 0 for rest.
pub fn turn<K: Entry, C: Coin>(
    replica: &mut Replica,
    tables: &mut Tables<'_, K>,
    coin: &mut C,
) -> Result<u8, Refusal>
    ensures value { (numbered result, replica.new, store K.bytes tables.new) ≡ turn_of (C.meaning coin.old) replica.old (store K.bytes tables.old) }
    ensures coin { C.meaning coin.new ≡ C.meaning coin.old }
{
    let lent = replica.fitted(tables)?;
    let Some(next) = choose(&lent, coin) else {
        return Ok(0);
    };
    apply(replica, tables, next);
    Ok(next.number())
}

// The bit with which the epoch opens: 1 if its queue has a candidate, else 0.
fn opening<K: Entry>(lent: &Fitted<'_, '_, K>) -> Result<bool, Refusal>
    ensures { numbered result ≡ opening_of lent.now.replica.now (store_of lent.now) }
{
    if lent.replica.epoch >= EPOCHS {
        return Err(Refusal::Over);
    }
    match lent.replica.stage {
        Stage::Unopened => Ok(candidate(lent).is_some()),
        Stage::Awaiting | Stage::Open { .. } => Err(Refusal::Begun),
    }
}

// Opens the epoch: round 0 begins, and its value is stated.
pub fn open<K: Entry>(replica: &mut Replica, tables: &mut Tables<'_, K>) -> Result<(), Refusal>
    ensures { (numbered result, replica.new, store K.bytes tables.new) ≡ open_of replica.old (store K.bytes tables.old) }
{
    let lent = replica.fitted(tables)?;
    let bit = opening(&lent)?;
    let epoch = replica.epoch;
    let round = 0;
    replica.stage = Stage::Open {
        round,
        closed: false,
    };
    state(replica, tables, Claim::Value { epoch, round, bit });
    Ok(())
}
