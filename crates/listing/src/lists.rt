ghost use Rattle.std.specs.Prelude.{◌≡◌, ◌+◌, ◌^◌, ◌<◌, IfOk, OnOk};
ghost use Rattle.wire.specs.Statements.{message_of};
ghost use Rattle.listing.specs.Rows.{kind_of, row_of};
ghost use Rattle.listing.specs.Lists.{list_of, grown};
ghost use Rattle.listing.specs.Records.{listed_of};

use crate::listing::Listing;
use crate::row::Row;
use entry::Entry;
use std::alloc::{AllocError, Global};
use wire::walk;

// Lists the statements of a frame. The clauses name the four members of the kind one by one: a definition has
// no type of entry to take them from.
pub fn list<K: Entry>(heap: Global, frame: &[u8]) -> Result<Listing, AllocError>
    ensures { IfOk result (λ l. listed_of l ≡ list_of (kind_of K.WIDTH K.valid K.heading K.columns) frame.now) }
{
    let mut listing = Listing {
        rows: Vec::new(heap),
        count: 0,
        fault: None,
    };
    for step in walk::<K>(frame) {
        // a closure: passed by its name, `try_from` is not covered by the borrow checker
        match step.and_then(|part| Row::<K>::try_from(part)) {
            Ok(row) => listing.push(row)?,
            Err(fault) => {
                listing.fault = Some(fault);
                break;
            }
        }
    }
    Ok(listing)
}

impl Listing {
    // Puts a row behind the others, and counts it.
    fn push<K: Entry>(&mut self, row: Row<'_, K>) -> Result<(), AllocError>
        requires { self.old.count + 1 < 2 ^ 64 }
        ensures { OnOk result (listed_of self.new ≡ grown (row_of (kind_of K.WIDTH K.valid K.heading K.columns) row.entry.place (message_of row.entry.statement)) (listed_of self.old)) }
    {
        row.push(&mut self.rows)?;
        self.count += 1;
        Ok(())
    }
}
