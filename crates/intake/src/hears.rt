ghost use Rattle.std.specs.Prelude.{◌≡◌};
ghost use Rattle.common.specs.Refusals.{answered, numbered};
ghost use Rattle.replica.specs.Store.{store};
ghost use Rattle.replica.specs.Claims.{claim_of};
ghost use Rattle.intake.specs.Hearing.{judge_of, hear_of};
ghost use Rattle.intake.specs.Meaning.{Hears};

use crate::admitting::admit;
use common::Refusal;
use entry::Entry;
use replica::{Claim, Fitted, Replica, Tables};
use wire::parse;

// What the bytes from a sender state, if that is accepted. Like `offer` it is a list of checks; one function for both would
// be no plainer.
fn judge<K: Entry>(lent: &Fitted<'_, '_, K>, sender: u8, s: &[u8]) -> Result<Claim<K>, Refusal>
    ensures { answered (claim_of K.bytes) result ≡ judge_of K.WIDTH K.valid lent.now.replica.now (store K.bytes lent.now.tables.now) sender s.now }
{
    let replica = lent.replica;
    if sender >= replica.set.n || sender == replica.set.me {
        return Err(Refusal::Sender);
    }
    let statement = parse::<K>(s)?;
    let claim = admit(replica, sender, statement)?;
    lent.vacant(sender, claim)?;
    Ok(claim)
}

// Hears the bytes of one statement from a sender, and holds it if it is accepted.
#[tactic(auto, using(crate::proofs::Heard::hears_by))]
pub fn hear<K: Entry>(
    replica: &mut Replica,
    tables: &mut Tables<'_, K>,
    sender: u8,
    s: &[u8],
) -> Result<(), Refusal>
    ensures value { (numbered result, replica.new, store K.bytes tables.new) ≡ hear_of K.WIDTH K.valid replica.old (store K.bytes tables.old) sender s.now }
    ensures hears { Hears K.WIDTH K.valid replica.old (store K.bytes tables.old) sender s.now (numbered result) replica.new (store K.bytes tables.new) }
{
    let lent = replica.fitted(tables)?;
    let claim = judge(&lent, sender, s)?;
    replica.hold(tables, sender, claim);
    Ok(())
}
