ghost use Rattle.std.specs.Prelude.{◌≡◌, ◌^◌, ◌<◌, ◌≤◌, ◌≢◌};

use crate::house::House;

// A share that one house gives to another.
#[derive(Clone, Copy, Debug, PartialEq, Eq)]
pub struct Gift {
    pub from: House,
    pub to: House,
    pub amount: u32,
    ghost apart: { from.number ≢ to.number },
    ghost least: { 1 ≤ amount },
    ghost word: { amount < 2 ^ 32 },
}
