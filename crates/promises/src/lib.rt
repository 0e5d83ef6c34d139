// The promises: what honest replicas of a set keep to, after every list of submit, open, hear and turn. Here live
// runs of calls over the definitions that the calls' own contracts cite, and the theorem, on a contract.
// No code of a replica is here, and nothing of how the theory proves it. The functions do nothing: a contract stands on each,
// and a `()` would be no plainer than the 0 that they answer.
#![tactic(auto)]

ghost use Rattle.promises.specs.Promised.{Promise};
ghost use Rattle.promises.specs.Met.{Met};

// Agreement, no repetition, as submitted, as opened and evening out, for every kind, coin, set and list of calls.
pub fn promises_stand() -> u8
    ensures { Promise }
{
    0
}

// A list of calls by bytes for four replicas, one of them faulty, meets every premise and writes a page.
pub fn premises_met() -> u8
    ensures { Met }
{
    0
}
