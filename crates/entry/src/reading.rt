ghost use Rattle.std.specs.Prelude.{◌^◌, ◌<◌, ◌≤◌};

use crate::house::House;
use crate::quantity::Quantity;

// What a house's meter showed for a week.
#[derive(Clone, Copy, Debug, PartialEq, Eq)]
pub struct Reading {
    pub house: House,
    pub week: u8,
    pub quantity: Quantity,
    pub amount: u32,
    ghost least: { 1 ≤ week },
    ghost most: { week ≤ 53 },
    ghost word: { amount < 2 ^ 32 },
}
