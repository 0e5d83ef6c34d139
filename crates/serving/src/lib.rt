// Serving a replica: one call of a list, made at a replica and its lent tables, and a list of calls. Here the four calls
// submit, open, hear and turn come together, and the promises stand on the call that makes each.
// What each call does is its own crate's; what a program reads and prints is not here.
#![tactic(auto)]

mod call;
mod serves;

pub use call::Call;
pub use serves::{serve, serve_all};
