ghost use Rattle.std.specs.Prelude.{◌≡◌};
ghost use Rattle.common.specs.Refusals.{answered};
ghost use Rattle.replica.specs.Making.{numbers, set_for};

use crate::set::Set;
use cells::Grid;
use common::{MAX_SLOTS, Refusal, quorum};

impl Set {
    // The numbers of a set of `n` replicas with `w` slots each, for the replica `me`.
    pub fn new(n: u8, me: u8, w: u8) -> Result<Set, Refusal>
        ensures { answered numbers result ≡ set_for n me w }
    {
        let (f, q) = quorum(n)?;
        if me >= n {
            return Err(Refusal::Own);
        }
        if !(1..=MAX_SLOTS).contains(&w) {
            return Err(Refusal::Slots);
        }
        Ok(Set { n, w, f, q, me })
    }

    // What the places of its cells go by.
    pub fn grid(self) -> Grid
        ensures { result ≡ record { n = self.n; w = self.w } }
    {
        Grid {
            n: self.n,
            w: self.w,
        }
    }
}
