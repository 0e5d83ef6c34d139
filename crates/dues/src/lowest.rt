ghost use Rattle.std.specs.Prelude.{◌≡◌};
ghost use Rattle.std.specs.Option.{option_map};
ghost use Rattle.votes.specs.Sets.{bits_of};
ghost use Rattle.dues.specs.Lowest.{lowest};

use replica::Bits;

// The lowest bit of what may be no set.
pub fn lowest(set: Option<Bits>) -> Option<bool>
    ensures { result ≡ lowest (option_map bits_of set) }
{
    match set? {
        Bits::Only(bit) => Some(bit),
        Bits::Both => Some(false),
    }
}
