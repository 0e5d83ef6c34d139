ghost use Rattle.std.specs.Prelude.{◌≡◌, take};
ghost use Rattle.common.specs.Refusals.{answered};
ghost use Rattle.theory.specs.Plan.{sameness};
ghost use Rattle.theory.specs.Book.{stands_in_book};
ghost use Rattle.replica.specs.Store.{store, paged};
ghost use Rattle.replica.specs.View.{plan, book_of};
ghost use Rattle.replica.specs.Paging.{page_of, Reads};

use crate::book::in_book;
use crate::lent::{Page, Tables};
use crate::state::Replica;
use common::Refusal;
use entry::Entry;

impl Replica {
    // The page at a place in the book, counted from 0.
    #[tactic(auto, using(crate::proofs::Leading::reads))]
    pub fn page<K: Entry>(&self, tables: &Tables<'_, K>, place: usize) -> Result<Page<K>, Refusal>
        ensures value { answered (paged K.bytes) result ≡ page_of self.now (store K.bytes tables.now) place }
        ensures reads { Reads self.now (store K.bytes tables.now) }
    {
        let lent = self.fitted(tables)?;
        // Apart from `get`: over `book_cells`, with `flatten`, what it answers was tried and not proved.
        if place >= usize::from(self.pages) {
            return Err(Refusal::Page);
        }
        lent.tables.pages.get(place).ok_or(Refusal::Page)
    }

    // The cells of the book: as many as the replica counts. For any tables, where a `Fitted` would ask more.
    pub fn book_cells<'t, K: Entry>(&self, tables: &'t Tables<'_, K>) -> &'t [Option<Page<K>>]
        ensures { result.now ≡ take self.now.pages tables.now.pages.cells.now }
    {
        let cells = tables.pages.as_slice();
        cells.get(..usize::from(self.pages)).unwrap_or(cells)
    }

    // Whether the entry is in the book, for any tables, as `book_cells`.
    pub fn booked<K: Entry>(&self, tables: &Tables<'_, K>, x: &K) -> bool
        ensures { result ≡ stands_in_book (sameness (plan self.now)) (book_of self.now (store K.bytes tables.now)) (K.bytes x.now) }
    {
        in_book(self.book_cells(tables), x)
    }
}
