use crate::set::Set;
use votes::Votes;

// Where a replica is in its epoch.
#[derive(Clone, Copy, PartialEq, Eq)]
pub enum Stage {
    Unopened,
    // In a round; the last one closes once. `closed` counts there only, as in the theory's stage: a case of its own would
    // double each match.
    Open { round: u8, closed: bool },
    // Decided with 1, and its page is not written yet.
    Awaiting,
}

// All that a replica holds besides its lent tables, in arrays of fixed size: there is no heap here.
#[derive(Clone, Copy, PartialEq, Eq)]
pub struct Replica {
    pub set: Set,
    pub epoch: u16,
    pub stage: Stage,
    pub votes: Votes,
    // The own finish of each epoch that was left, which `past_finish` reads and `keep_finish` keeps.
    pub past: [Option<bool>; 256],
    // The first slot of each queue that may still be written.
    pub heads: [u8; 16],
    // How many pages the book has: tables are lent anew at each call, so the replica keeps their used length.
    pub pages: u16,
}
