ghost use Rattle.std.specs.Prelude.{◌≡◌, map, length};
ghost use Rattle.common.specs.Refusals.{numbered};
ghost use Rattle.replica.specs.Store.{store};
ghost use Rattle.promises.specs.Promised.{Promise};
ghost use Rattle.promises.specs.Runs.{kind_of, call_of};
ghost use Rattle.serving.specs.Serves.{call_in, served};

use crate::call::Call;
use coin::Coin;
use common::Refusal;
use entry::Entry;
use intake::{hear, submit};
use moves::{open, turn};
use replica::{Replica, Tables};

// Makes one call; answers 0 where it is accepted and has nothing to tell, and the number of a turn.
pub fn serve<K: Entry, C: Coin>(
    replica: &mut Replica,
    tables: &mut Tables<'_, K>,
    coin: &mut C,
    call: Call<'_>,
) -> Result<u8, Refusal>
    ensures value { (numbered result, replica.new, store K.bytes tables.new) ≡ call_of (kind_of K.WIDTH K.valid) (C.meaning coin.old) replica.old (store K.bytes tables.old) (call_in call.entry) }
    ensures coin { C.meaning coin.new ≡ C.meaning coin.old }
    ensures promise { Promise }
{
    match call {
        Call::Submit(bytes) => submit(replica, tables, bytes)?,
        Call::Open => open(replica, tables)?,
        Call::Hear { sender, bytes } => hear(replica, tables, sender, bytes)?,
        Call::Turn => return turn(replica, tables, coin),
    }
    Ok(0)
}

// Makes the calls of a list, one after the other, whatever they answer, and puts down what each answers.
pub fn serve_all<K: Entry, C: Coin>(
    replica: &mut Replica,
    tables: &mut Tables<'_, K>,
    coin: &mut C,
    calls: &[Call<'_>],
    answers: &mut [Result<u8, Refusal>],
)
    requires each { length answers.old ≡ length calls.now }
    ensures value { (map numbered answers.new, replica.new, store K.bytes tables.new) ≡ served (kind_of K.WIDTH K.valid) (C.meaning coin.old) replica.old (store K.bytes tables.old) calls.now }
    ensures coin { C.meaning coin.new ≡ C.meaning coin.old }
{
    for (i, call) in calls.iter().enumerate() {
        answers[i] = serve(replica, tables, coin, *call);
    }
}
