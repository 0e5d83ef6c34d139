// The line of a page.
ghost use Rattle.replica.specs.Store.{paged};
ghost use Rattle.printing.specs.Files.{cells_of, line_of};

use crate::sink::Sink;
use crate::text::put_cell;
use entry::Entry;
use replica::Page;

// Puts the line of a page.
pub fn put_line<K: Entry, S: Sink>(sink: &mut S, page: &Page<K>)
    ensures { S.put_gives sink.old (line_of K.columns (paged K.bytes page.now)) sink.new }
{
    sink.put_decimal(u64::from(page.epoch));
    put_cell(sink, u64::from(page.queue));
    put_cell(sink, u64::from(page.slot));
    put_columns(sink, &page.item);
    sink.put(b"\n");
}

// Puts the columns of an entry, each behind a semicolon. In a generic function the check's own text for a loop over
// `map_while` does not type-check, and behind `for_each` nothing is known of the sink.
fn put_columns<K: Entry, S: Sink>(sink: &mut S, x: &K)
    ensures { S.put_gives sink.old (cells_of (K.columns (K.bytes x.now))) sink.new }
{
    for i in 0.. {
        let Some(n) = x.column(i) else {
            return;
        };
        put_cell(sink, u64::from(n));
    }
}
