// The record of a frame: its statements as rows of a table, for a person to read. Everything is a function
// on values; the program that reads a frame and prints its record only calls `record`.
// What a replica makes of a statement is not here.
#![tactic(auto)]

mod cells;
mod listing;
mod lists;
mod records;
mod row;
mod rows;

pub use listing::Listing;
pub use lists::list;
pub use records::record;
