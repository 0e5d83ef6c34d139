// A group of replicas, each with its own tables, worked side by side: a call at one of them; all hear all boards; each
// turns until it rests; and both, again and again, until nothing alters.
// What a call does is `serving`'s; what a script says and what is printed is not here.
#![tactic(auto)]

mod calls;
mod hearing;
mod making;
mod member;
mod settling;
mod turning;

pub use making::blank;
pub use member::{Group, Member, Own};
