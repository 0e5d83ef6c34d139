ghost use Rattle.std.specs.Prelude.{◌≡◌, IfOk};
ghost use Rattle.common.specs.Quorums.{quorum_of, Sound};
ghost use Rattle.common.specs.Refusals.{numbered};

use crate::limits::{MAX_REPLICAS, MIN_REPLICAS};
use crate::refusal::Refusal;

// For each number N of replicas from MIN_REPLICAS on: how many may be faulty, and how many equal echoes make a ready.
// Pairs in a table, because the rule is given as such a table.
const TABLE: [(u8, u8); 13] = [
    (1, 3),
    (1, 4),
    (1, 4),
    (2, 5),
    (2, 6),
    (2, 6),
    (3, 7),
    (3, 8),
    (3, 8),
    (4, 9),
    (4, 10),
    (4, 10),
    (5, 11),
];

// The faults f and the echo quorum Q of a set of n replicas. With `contains` for the two comparisons the proof does not
// close (tried).
pub fn quorum(n: u8) -> Result<(u8, u8), Refusal>
    ensures value { numbered result ≡ quorum_of n }
    ensures sound { IfOk result (Sound n) }
{
    if n < MIN_REPLICAS || n > MAX_REPLICAS {
        return Err(Refusal::Boxes);
    }
    Ok(TABLE[usize::from(n - MIN_REPLICAS)])
}
