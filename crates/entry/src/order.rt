use crate::gift::Gift;
use crate::house::House;

// What a house orders of its share.
#[derive(Clone, Copy, Debug, PartialEq, Eq)]
pub enum ShareOrder {
    Give(Gift),
    // The house is closed for the week.
    Close(House),
}
