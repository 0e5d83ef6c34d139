// Counts of the first n senders. What lies within a set that may be empty is given that set as an Option.
// Each count is told n by its caller, which has it in its set of replicas: marks do not know how many there are.
ghost use Rattle.std.specs.Prelude.{◌≡◌, ℕ, true, false};
ghost use Rattle.std.specs.Option.{option_map};
ghost use Rattle.theory.specs.Count.{count};
ghost use Rattle.theory.specs.Turns.{set_of};
ghost use Rattle.votes.specs.Sets.{bits_of, bit_in};
ghost use Rattle.votes.specs.Votes.{has, marks, is_bit, bit_of, seen_inside, confirmed_in, union_has};

use crate::bits::Bits;
use crate::marks::Marks;
use crate::mask::Mask;
use crate::sets::holds;

impl Marks {
    // How many have marked the bit.
    pub fn value_count(self, bit: bool, n: u8) -> u32
        ensures { result ≡ count n (marks self bit) }
    {
        self.of(bit).count(n)
    }

    // The senders that have this bit as their one bit.
    fn told(self, bit: bool) -> Mask
        ensures { (j : ℕ) → has result.0 j ≡ is_bit bit (bit_of self j) }
    {
        if bit {
            self.one.except(self.zero)
        } else {
            self.zero
        }
    }

    // How many have this bit as their one bit.
    pub fn bit_count(self, bit: bool, n: u8) -> u32
        ensures { result ≡ count n (λ j. is_bit bit (bit_of self j)) }
    {
        self.told(bit).count(n)
    }

    // How many have a bit of the set as their one bit.
    pub fn seen_within(self, within: Option<Bits>, n: u8) -> u32
        ensures { result ≡ count n (seen_inside self (bit_in within false) (bit_in within true)) }
    {
        let zero = self.told(false).kept(holds(within, false));
        let one = self.told(true).kept(holds(within, true));
        (zero | one).count(n)
    }

    // The senders whose set lies within the given one.
    fn confirmed(self, within: Option<Bits>) -> Mask
        ensures { (j : ℕ) → has result.0 j ≡ confirmed_in self (bit_in within false) (bit_in within true) j }
    {
        let zero = self.zero.kept(!holds(within, false));
        let one = self.one.kept(!holds(within, true));
        (self.zero | self.one).except(zero | one)
    }

    // How many have a set within the given one.
    pub fn confirmed_within(self, within: Option<Bits>, n: u8) -> u32
        ensures { result ≡ count n (confirmed_in self (bit_in within false) (bit_in within true)) }
    {
        self.confirmed(within).count(n)
    }

    // The union of the sets within the given one, if there is any.
    pub fn union(self, within: Option<Bits>, n: u8) -> Option<Bits>
        ensures { option_map bits_of result ≡ set_of (union_has self (bit_in within false) (bit_in within true) n false) (union_has self (bit_in within false) (bit_in within true) n true) }
    {
        let confirmed = self.confirmed(within);
        Bits::of(
            1 <= (confirmed & self.zero).count(n),
            1 <= (confirmed & self.one).count(n),
        )
    }
}
