// The worked examples that are proved, as one table, and the tests that are run: each range's edges and
// what lies just past them, each refusal, frames cut at each byte.
// `examples_stand` does nothing: a contract stands on it, and a `()` would be no plainer than the 0 that it answers.
// `lending` has two callers that lend memory to a table: their contracts say what becomes of it.
// Nothing here is used by another crate but the memory for the tests of a replica, which `trials` lends too.
#![tactic(auto)]

ghost use Rattle.checks.specs.Examples.{All, examples};

#[cfg(test)]
mod coins;
#[cfg(test)]
mod entries;
#[cfg(test)]
mod frames;
pub mod lending;
pub mod memory;
#[cfg(test)]
mod quorums;
#[cfg(test)]
mod records;
#[cfg(test)]
mod replicas;

// Every row of the table of examples holds.
#[tactic(auto, using(crate::proofs::Rows::stand))]
pub fn examples_stand() -> u8
    ensures { All examples }
{
    0
}
