ghost use Rattle.std.specs.Prelude.{◌≡◌, ◌+◌, ◌<◌, ◌≤◌, map, length, Some, None, slice_index_or, slice_set};
ghost use Rattle.std.specs.Option.{option_map};
ghost use Rattle.cells.specs.Rows.{emptied, part, standing, lowest_in};

use crate::rows::{lowest, standing};
use crate::slices::empty;
use entry::Entry;

// A table of cells in lent memory: free, or with what is held there. It has no `Model`: behind one, a caller that lets it go
// would not know what became of the memory. That was tried.
#[derive(Drop)]
pub struct Witness<'a, T> {
    pub cells: &'a mut [Option<T>],
}

impl<'a, T: Copy> Witness<'a, T> {
    // The table over these cells.
    pub fn over(cells: &'a mut [Option<T>]) -> Witness<'a, T>
        ensures same { result.cells.ghost_name ≡ cells.entry.ghost_name }
        ensures cells { result.cells.now ≡ cells.old }
    {
        Witness { cells }
    }

    // How many cells there are.
    pub fn len(&self) -> usize
        ensures { result ≡ length self.now.cells.now }
    {
        self.cells.len()
    }

    // The cells as a slice.
    pub fn as_slice(&self) -> &[Option<T>]
        ensures { result.now ≡ self.now.cells.now }
    {
        &*self.cells
    }

    // What is held at a place, or nothing past the end.
    pub fn get(&self, at: usize) -> Option<T>
        ensures { result ≡ slice_index_or self.now.cells.now at None }
    {
        *self.cells.get(at)?
    }

    // Holds something at a place.
    pub fn hold(&mut self, at: usize, x: T)
        requires { at < length self.old.cells.now }
        ensures same { self.new.cells.ghost_name ≡ self.old.cells.ghost_name }
        ensures cells { self.new.cells.now ≡ slice_set self.old.cells.now at (Some x) }
    {
        // A borrow of its own: with `self.cells[at]` the check leaves open that the cell's offset fits (tried).
        let cells = &mut *self.cells;
        cells[at] = Some(x);
    }

    // Empties the first `n` cells.
    pub fn clear(&mut self, n: usize)
        requires { n ≤ length self.old.cells.now }
        ensures same { self.new.cells.ghost_name ≡ self.old.cells.ghost_name }
        ensures cells { self.new.cells.now ≡ emptied n self.old.cells.now }
    {
        empty(self.cells, n);
    }

    // The row of `n` cells that begins at `from`. It and the two below ask for the row's end each, since methods
    // that pass the slice to functions are a rule of the project.
    pub fn row(&self, from: usize, n: usize) -> &[Option<T>]
        requires { from + n ≤ length self.now.cells.now }
        ensures { result.now ≡ part from n self.now.cells.now }
    {
        &self.cells[from..from + n]
    }
}

impl<K: Entry> Witness<'_, K> {
    #[tactic(auto, using(crate::proofs::Cellrows::map_part))]
    // How many of the row of `n` cells that begins at `from` hold the entry.
    pub fn standing(&self, from: usize, n: usize, x: &K) -> usize
        requires { from + n ≤ length self.now.cells.now }
        ensures { result ≡ standing (part from n (map (option_map K.bytes) self.now.cells.now)) (K.bytes x.now) }
    {
        standing(self.row(from, n), x)
    }

    #[tactic(auto, using(crate::proofs::Cellrows::map_part))]
    // In that row, the entry of the lowest sender whose entry at least so many hold.
    pub fn lowest(&self, from: usize, n: usize, least: usize) -> Option<K>
        requires { from + n ≤ length self.now.cells.now }
        ensures { option_map K.bytes result ≡ lowest_in least (part from n (map (option_map K.bytes) self.now.cells.now)) }
    {
        lowest(self.row(from, n), least)
    }
}
