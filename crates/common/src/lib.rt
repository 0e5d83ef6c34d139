// Common ground of every crate: the numbered refusals, the limits of a set of replicas, and the quorum
// table. A refusal's number is given here once and by nothing else.
// No entries, no bytes and no state live here.
#![tactic(auto)]

mod limits;
mod quorums;
mod refusal;

pub use limits::{EPOCHS, MAX_REPLICAS, MAX_SLOTS, MIN_REPLICAS, ROUNDS};
pub use quorums::quorum;
pub use refusal::Refusal;
