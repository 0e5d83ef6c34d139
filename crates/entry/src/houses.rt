ghost use Rattle.std.specs.Prelude.{◌≡◌, false, MatchResult};
ghost use Rattle.entry.specs.Numbers.{within};

use crate::house::{House, UnknownHouse};

// The house of a number, if there is one.
impl TryFrom<u16> for House {
    type Error = UnknownHouse;

    ghost try_from_gives = { λ n r. MatchResult r (λ h. h.number ≡ n) (λ e. (e.0 ≡ n) × (within 1 999 n ≡ false)) };

    fn try_from(number: u16) -> Result<House, UnknownHouse> {
        if !(1..=999).contains(&number) {
            return Err(UnknownHouse(number));
        }
        Ok(House { number })
    }
}
