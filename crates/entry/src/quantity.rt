ghost use Rattle.std.specs.Prelude.{◌≡◌, false, MatchResult};
ghost use Rattle.entry.specs.Numbers.{within};
ghost use Rattle.entry.specs.Readings.{quantity_of};

// What a meter counts.
#[derive(Clone, Copy, Debug, PartialEq, Eq)]
pub enum Quantity {
    Heat = 1,
    Water,
    Carbon,
}

// A number that no quantity has.
#[derive(Clone, Copy, Debug, PartialEq, Eq)]
pub struct UnknownQuantity(pub u8);

// Its number in bytes and columns.
impl From<Quantity> for u8 {
    ghost from_gives = { λ quantity n. n ≡ quantity_of quantity };

    fn from(quantity: Quantity) -> u8 {
        // A case's number, which `as` alone gives.
        quantity as u8
    }
}

// The quantity of a number, if there is one.
impl TryFrom<u8> for Quantity {
    type Error = UnknownQuantity;

    ghost try_from_gives = { λ n r. MatchResult r (λ q. quantity_of q ≡ n) (λ e. (e.0 ≡ n) × (within 1 3 n ≡ false)) };

    fn try_from(number: u8) -> Result<Quantity, UnknownQuantity> {
        match number {
            1 => Ok(Quantity::Heat),
            2 => Ok(Quantity::Water),
            3 => Ok(Quantity::Carbon),
            _ => Err(UnknownQuantity(number)),
        }
    }
}
