// One turn of a replica: the first of the ten that applies is chosen, which changes nothing, and then done. And the
// opening of an epoch. Here live the calls `turn` and `open`.
// What is due is found in `dues`; why turns in this order keep books equal is the theory's.
#![tactic(auto)]

mod applying;
mod choosing;
mod leaving;
mod moves;
mod numbers;
mod turning;

pub use moves::Move;
pub use turning::{open, turn};
