// What is due at a replica: for each of the ten turns, what it would state, decide, write or close, if it applies.
// All here read only, and each answers what the theory finds at the view of the tables and votes.
// Which of them comes first, and what is then done, is not here.
#![tactic(auto)]

mod ballots;
mod due;
mod lowest;
mod pages;
mod rounds;
mod slots;
mod thresholds;

pub use ballots::{decided, follow_due};
pub use due::Due;
pub use pages::{candidate, page_due, queue_of};
pub use rounds::{Closing, close_due, confirm_due, second_due, seen_due};
pub use slots::{echo_due, have_due, ready_due};
