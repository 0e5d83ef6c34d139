// What a replica takes in: bytes from other replicas by `hear`, and entries of its own queue by `submit`. Here
// live the checks of both in their order; what is accepted fills one cell.
// Letters and byte widths are the wire's, cells the replica's; which turn follows is not asked here.
#![tactic(auto)]

mod admitting;
mod hears;
mod operands;
mod submits;

pub use hears::hear;
pub use submits::submit;
