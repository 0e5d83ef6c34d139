// A day of frames, replayed into one replica: records of bytes that boxes sent, which are submitted or heard
// one by one, and a line of text for each that is declined.
// Which entries and statements are accepted is decided by `intake`; what a frame is, by `wire`.
#![tactic(auto)]

mod days;
mod frames;
mod lines;
mod record;
mod records;

pub use days::replay;
