// A script for a group of replicas: one-letter commands, read one by one, and what playing them writes.
// What a group does is `group`'s; what a call accepts, `intake`'s and `moves`'; what a file says, `printing`'s.
#![tactic(auto)]

mod command;
mod lines;
mod player;
mod playing;
mod reading;
mod writing;

pub use writing::output;
