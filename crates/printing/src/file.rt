// The whole file.
ghost use Rattle.std.specs.Prelude.{◌≡◌, map, take, IfOk};
ghost use Rattle.std.specs.Option.{option_map};
ghost use Rattle.common.specs.Refusals.{numbered};
ghost use Rattle.replica.specs.Store.{store, paged};
ghost use Rattle.replica.specs.View.{leading, book_of};
ghost use Rattle.printing.specs.Files.{opening_of, names_of, file_of, print_of};
ghost use Rattle.printing.specs.Grids.{grid_in, grid_of};

use crate::pages::{filled, put_lines};
use crate::sink::{Cursor, Length, Sink};
use crate::text::put_cell;
use common::Refusal;
use entry::Entry;
use replica::{Fitted, Page, Replica, Tables};

// Writes the file of a replica's book to the front of `out`; answers how long it is. A call that is declined
// leaves `out` as it was.
pub fn print<K: Entry>(
    replica: &Replica,
    tables: &Tables<'_, K>,
    out: &mut [u8],
) -> Result<usize, Refusal>
    ensures value { (numbered result, out.new) ≡ print_of K.heading K.columns replica.now (store K.bytes tables.now) out.old }
    ensures grid { IfOk result (λ len. grid_in (take len out.new) ≡ grid_of K.heading K.columns replica.now.set.n (book_of replica.now (store K.bytes tables.now))) }
{
    let Fitted {
        replica,
        tables,
        ..
    } = replica.fitted(tables)?;
    let pages = replica.book_cells(tables);
    let mut length = Length { bytes: 0 };
    put_file(&mut length, replica.set.n, pages);
    if out.len() < length.bytes {
        return Err(Refusal::File);
    }
    let mut front = Cursor { out, at: 0 };
    put_file(&mut front, replica.set.n, pages);
    Ok(front.at)
}

// Puts the file of a book of `n` replicas.
fn put_file<K: Entry, S: Sink>(sink: &mut S, n: u8, pages: &[Option<Page<K>>])
    ensures { S.put_gives sink.old (file_of K.heading K.columns n (leading (map (option_map (paged K.bytes)) pages.now))) sink.new }
{
    put_opening(sink, n, filled(pages));
    put_names::<K, S>(sink);
    put_lines(sink, pages);
}

// Puts the first line.
fn put_opening<S: Sink>(sink: &mut S, n: u8, pages: usize)
    ensures { S.put_gives sink.old (opening_of n pages) sink.new }
{
    sink.put(b"book");
    put_cell(sink, u64::from(n));
    put_cell(sink, pages as u64);
    sink.put(b"\n");
}

// Puts the names of the columns.
fn put_names<K: Entry, S: Sink>(sink: &mut S)
    ensures { S.put_gives sink.old (names_of K.heading) sink.new }
{
    sink.put(b"epoch;box;slot;");
    sink.put(K::names());
    sink.put(b"\n");
}
