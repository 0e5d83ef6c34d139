// Opening an epoch and turning, as definitions: what the two calls answer, and the replica and every cell after them.
// Here lives the proof that each does to a replica and its tables what the theory's box does.
// The code of both calls is in `moves`. The function here does nothing: a contract stands on it, and a `()` would be no plainer
// than the 0 that it answers.
#![tactic(auto)]

ghost use Rattle.turns.specs.Ties.{Ties};

// On whole replicas, open and turn are the theory's steps, and leave a whole replica.
pub fn ties_stand() -> u8
    ensures { Ties }
{
    0
}
