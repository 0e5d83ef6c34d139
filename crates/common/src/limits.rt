// The limits of a set. specs/Limits.antt has the same numbers for the promises: tried with these cited there, and a
// changed limit changed the promises with it and was let through.

// How many replicas a set has.
pub const MIN_REPLICAS: u8 = 4;

pub const MAX_REPLICAS: u8 = 16;

// How many slots a queue has at most.
pub const MAX_SLOTS: u8 = 16;

// How many epochs a week has.
pub const EPOCHS: u16 = 256;

// How many rounds an epoch has.
pub const ROUNDS: u8 = 16;
