// The replica: its plain numbers, the tables that are lent to it at each call, and its calls. Here live the
// types of both, `make` and `page`.
// A call reads or writes no cell beyond those that the set needs. Letters and byte widths are not here, nor
// is the theory of what replicas promise together.
#![tactic(auto)]

mod book;
mod claim;
mod finishing;
mod fitted;
mod fitting;
mod fresh;
mod holding;
mod lending;
mod lent;
mod making;
mod paging;
mod set;
mod sets;
mod settling;
mod state;

pub use claim::Claim;
pub use fitted::Fitted;
pub use lent::{Page, Tables};
pub use set::Set;
pub use state::{Replica, Stage};
pub use votes::Bits;
