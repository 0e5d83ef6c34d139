// Sets of bits, as numbers and as flags. A set that may be empty is an Option.
ghost use Rattle.std.specs.Prelude.{◌≡◌};
ghost use Rattle.std.specs.Option.{option_map};
ghost use Rattle.common.specs.Refusals.{answered};
ghost use Rattle.theory.specs.Turns.{set_of};
ghost use Rattle.votes.specs.Sets.{bits_of, in_set, bit_in, number_of_set, set_read};

use crate::bits::Bits;
use common::Refusal;

impl Bits {
    // The set, by whether bit 0 and whether bit 1 is in it.
    pub fn of(zero: bool, one: bool) -> Option<Bits>
        ensures { option_map bits_of result ≡ set_of zero one }
    {
        match (zero, one) {
            (true, true) => Some(Bits::Both),
            (true, false) => Some(Bits::Only(false)),
            (false, true) => Some(Bits::Only(true)),
            (false, false) => None,
        }
    }

    // Whether a bit is in the set.
    pub fn has(self, bit: bool) -> bool
        ensures { result ≡ in_set (bits_of self) bit }
    {
        match self {
            Bits::Only(only) => only == bit,
            Bits::Both => true,
        }
    }
}

// Whether a bit is in what may be no set.
pub(crate) fn holds(set: Option<Bits>, bit: bool) -> bool
    ensures { result ≡ bit_in set bit }
{
    set.is_some_and(|set| set.has(bit))
}

impl TryFrom<u8> for Bits {
    type Error = Refusal;

    ghost try_from_gives = { λ number r. answered bits_of r ≡ set_read number };

    fn try_from(number: u8) -> Result<Bits, Refusal> {
        match number {
            1 => Ok(Bits::Only(false)),
            2 => Ok(Bits::Only(true)),
            3 => Ok(Bits::Both),
            _ => Err(Refusal::Range),
        }
    }
}

impl From<Bits> for u8 {
    ghost from_gives = { λ set number. number ≡ number_of_set (bits_of set) };

    fn from(set: Bits) -> u8 {
        match set {
            Bits::Only(false) => 1,
            Bits::Only(true) => 2,
            Bits::Both => 3,
        }
    }
}
