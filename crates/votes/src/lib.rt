// The votes of one epoch: for each letter and round, the senders that have marked bit 0 and those that have
// marked bit 1, as two masks of 16 bits. Every pair of masks has a meaning, so nothing is asked of them.
// Here live: the set of a confirm, what a sender has marked, marking, and counts of senders by population count.
// Here live not: epochs, which statements are accepted, the turns, and every refusal but that of a set's number.
#![tactic(auto)]

mod ballot;
mod ballots;
mod bits;
mod counts;
mod marks;
mod mask;
mod masks;
mod senders;
mod sets;

pub use ballot::{Round, Votes};
pub use bits::Bits;
pub use marks::Marks;
pub use mask::Mask;
