ghost use Rattle.std.specs.Prelude.{◌≡◌, true};
ghost use Rattle.replica.specs.Store.{store, fits, cleared};

use crate::lent::{Page, Tables};
use cells::{Grid, Witness};
use entry::Entry;

impl<'a, K: Entry> Tables<'a, K> {
    // The tables over these slices.
    pub fn lend(
        sends: &'a mut [Option<K>],
        echoes: &'a mut [Option<K>],
        readies: &'a mut [Option<K>],
        haves: &'a mut [Option<K>],
        pages: &'a mut [Option<Page<K>>],
    ) -> Tables<'a, K>
        ensures sends { result.sends.cells.now ≡ sends.old }
        ensures echoes { result.echoes.cells.now ≡ echoes.old }
        ensures readies { result.readies.cells.now ≡ readies.old }
        ensures haves { result.haves.cells.now ≡ haves.old }
        ensures pages { result.pages.cells.now ≡ pages.old }
    {
        Tables {
            sends: Witness::over(sends),
            echoes: Witness::over(echoes),
            readies: Witness::over(readies),
            haves: Witness::over(haves),
            pages: Witness::over(pages),
        }
    }
}

impl<K: Entry> Tables<'_, K> {
    // Whether each table is long enough for a set of replicas.
    pub fn fit(&self, grid: Grid) -> bool
        ensures { result ≡ fits grid.n grid.w (store K.bytes self.now) }
    {
        let slots = grid.slots();
        let rows = grid.row_cells();
        self.sends.len() >= slots
            && self.echoes.len() >= rows
            && self.readies.len() >= rows
            && self.haves.len() >= rows
            && self.pages.len() >= slots
    }

    // Empties what a set of replicas needs.
    pub(crate) fn clear(&mut self, grid: Grid)
        requires { fits grid.n grid.w (store K.bytes self.old) ≡ true }
        ensures { store K.bytes self.new ≡ cleared grid.n grid.w (store K.bytes self.old) }
    {
        let slots = grid.slots();
        let rows = grid.row_cells();
        self.sends.clear(slots);
        self.echoes.clear(rows);
        self.readies.clear(rows);
        self.haves.clear(rows);
        self.pages.clear(slots);
    }
}
