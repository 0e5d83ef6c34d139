// How many calls of each kind were made, and what came of them. Each count goes round at 2^64.
#[derive(Clone, Copy)]
pub struct Counts {
    pub exchanges: u64,
    pub submits: u64,
    pub opens: u64,
    pub hears: u64,
    pub turns: u64,
    pub shows: u64,
    // The steps along a frame, with the one that finds its end.
    pub nexts: u64,
    pub prints: u64,
    // The statements that were accepted.
    pub accepted: u64,
    // The turns that were no rest.
    pub moves: u64,
}

impl Counts {
    // Nothing is counted yet.
    pub fn none() -> Counts {
        Counts {
            exchanges: 0,
            submits: 0,
            opens: 0,
            hears: 0,
            turns: 0,
            shows: 0,
            nexts: 0,
            prints: 0,
            accepted: 0,
            moves: 0,
        }
    }
}

// Counts one more.
pub fn tick(count: &mut u64) {
    *count = count.wrapping_add(1);
}
