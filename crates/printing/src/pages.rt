// The pages of a book, which go up to the first empty cell.
ghost use Rattle.std.specs.Prelude.{◌≡◌, map, length, take};
ghost use Rattle.std.specs.Option.{option_map};
ghost use Rattle.replica.specs.Store.{paged};
ghost use Rattle.replica.specs.View.{leading};
ghost use Rattle.printing.specs.Files.{lines_of};

use crate::lines::put_line;
use crate::sink::Sink;
use entry::Entry;
use replica::Page;

// How many pages there are.
pub fn filled<K: Entry>(pages: &[Option<Page<K>>]) -> usize
    ensures { result ≡ length (leading (map (option_map (paged K.bytes)) pages.now)) }
{
    pages.iter().take_while(|cell| cell.is_some()).count()
}

// Puts their lines. In a generic function the check's own text for a loop over `map_while` does not type-check.
pub fn put_lines<K: Entry, S: Sink>(sink: &mut S, pages: &[Option<Page<K>>])
    ensures { S.put_gives sink.old (lines_of K.columns (leading (map (option_map (paged K.bytes)) pages.now))) sink.new }
{
    for cell in pages {
        let Some(page) = cell else {
            return;
        };
        put_line(sink, page);
    }
}
