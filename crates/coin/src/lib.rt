// Coins: the bit that an epoch's agreement tosses in each round. The trait `Coin` says what every coin
// means: one bit for each epoch and round, the same whenever it is tossed. Two coins are here: the sheet,
// which is dealt beforehand, and the bench coin, for trials.
// Who deals a sheet, and how it is kept secret, is outside.
#![tactic(auto)]

mod bench;
mod kind;
mod sheet;
mod sheets;

pub use bench::Bench;
pub use kind::Coin;
pub use sheet::{SHEET, Sheet};
