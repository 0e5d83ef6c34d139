ghost use Rattle.std.specs.Prelude.{◌≡◌, ℕ, not, ◌&&◌, if◌then◌else◌, bit_and, bit_or};
ghost use Rattle.theory.specs.Count.{count};
ghost use Rattle.votes.specs.Votes.{has};

use crate::mask::Mask;
use std::ops::{BitAnd, BitOr};

impl Mask {
    // How many of the first n senders are in it.
    pub(crate) fn count(self, n: u8) -> u32
        ensures { result ≡ count n (has self.0) }
    {
        (u32::from(self.0) & ((1u32 << n.min(16)) - 1)).count_ones()
    }

    // Whether a sender is in it.
    pub(crate) fn contains(self, sender: u8) -> bool
        ensures { result ≡ has self.0 sender }
    {
        sender < 16 && (self.0 >> sender) % 2 == 1
    }

    // Its senders that are not in another.
    pub(crate) fn except(self, other: Mask) -> Mask
        ensures { (j : ℕ) → has result.0 j ≡ (has self.0 j && not (has other.0 j)) }
    {
        Mask(self.0 & !other.0)
    }

    // Its senders if so wished, else nobody. Callers cut two masks by a set, but not the same two: one sender's
    // mask twice, those of the told bits, and those outside the set. A cut of a whole pair is no plainer.
    pub(crate) fn kept(self, wished: bool) -> Mask
        ensures { result.0 ≡ (if wished then self.0 else 0) }
    {
        if wished { self } else { Mask(0) }
    }
}

impl BitAnd for Mask {
    type Output = Mask;

    ghost bitand_gives = { λ a b r. r.0 ≡ bit_and a.0 b.0 };

    fn bitand(self, other: Mask) -> Mask {
        Mask(self.0 & other.0)
    }
}

impl BitOr for Mask {
    type Output = Mask;

    ghost bitor_gives = { λ a b r. r.0 ≡ bit_or a.0 b.0 };

    fn bitor(self, other: Mask) -> Mask {
        Mask(self.0 | other.0)
    }
}
