// Cells of lent memory: what each sender stated for each queue and slot, one entry a cell. Here live the
// table over a lent slice, the place of a cell in it, and the counts over one slot's row of senders.
// Which rule wants how many, what is refused, and the votes are not here.
#![tactic(auto)]

mod grid;
mod rows;
mod slices;
mod witness;

pub use grid::Grid;
pub use slices::empty;
pub use witness::Witness;
