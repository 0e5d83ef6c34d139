// Kinds of entry: what the book may hold. A kind is a set of byte strings of one width, with a type for
// its entries, their sameness and their columns in the file. The replica above is written once, for
// every kind, and knows no more of one than the trait `Entry` says.
// Statements, frames and cells are not here.
#![tactic(auto)]

mod gift;
mod house;
mod houses;
mod kind;
mod order;
mod orders;
mod quantity;
mod reading;
mod readings;

pub use gift::Gift;
pub use house::{House, UnknownHouse};
pub use kind::{Entry, reread};
pub use order::ShareOrder;
pub use quantity::{Quantity, UnknownQuantity};
pub use reading::Reading;
