// The wire: the only place that knows letters and byte widths. A frame of bytes is walked with `next`, or
// from its beginning on with `walk`; each statement is read by `parse`, which leaves its entry a part of the
// frame, and written by `write`. Whether a queue, a slot, a round, a bit or a set is in range, and whether
// the bytes of an entry are one of the kind, is not asked here.
#![tactic(auto)]

mod frame;
mod lengths;
mod letter;
mod letters;
mod parser;
mod part;
mod parts;
mod statement;
mod statements;
mod steps;
mod writer;

pub use frame::next;
pub use lengths::measure;
pub use letter::Letter;
pub use parser::parse;
pub use part::{Fault, Part};
pub use parts::Parts;
pub use statement::Statement;
pub use steps::walk;
