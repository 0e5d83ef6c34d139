// The board of a replica, all that it holds from itself in a fixed order, and `show`, which writes it out
// as statements. Nothing is changed here but the output.
#![tactic(auto)]

mod ballots;
mod board;
mod output;
mod shown;
mod slots;
mod words;

pub use output::show;
pub use shown::Shown;
