ghost use Rattle.std.specs.Prelude.{◌≤◌};

// The number of a house.
#[derive(Clone, Copy, Debug, PartialEq, Eq)]
pub struct House {
    pub number: u16,
    ghost least: { 1 ≤ number },
    ghost most: { number ≤ 999 },
}

// A number that no house has.
#[derive(Clone, Copy, Debug, PartialEq, Eq)]
pub struct UnknownHouse(pub u16);
