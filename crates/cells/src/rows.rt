// Counts over one slot's row of cells, which has one cell for each sender.
ghost use Rattle.std.specs.Prelude.{◌≡◌, map};
ghost use Rattle.std.specs.Option.{option_map};
ghost use Rattle.cells.specs.Rows.{holds, standing, lowest_in};

use entry::Entry;

// Whether a cell holds the entry.
pub fn holds<K: Entry>(cell: &Option<K>, x: &K) -> bool
    ensures { result ≡ holds (K.bytes x.now) (option_map K.bytes cell.now) }
{
    cell.is_some_and(|y| y == *x)
}

// How many senders hold the entry, counted in one pass over the row. A counting loop over a row goes by the
// sender's index, which is a rule of the project.
pub fn standing<K: Entry>(cells: &[Option<K>], x: &K) -> usize
    ensures { result ≡ standing (map (option_map K.bytes) cells.now) (K.bytes x.now) }
{
    let mut senders = 0;
    for (_sender, cell) in cells.iter().enumerate() {
        if holds(cell, x) {
            senders += 1;
        }
    }
    senders
}

// The entry of the lowest sender whose entry at least so many hold.
pub fn lowest<K: Entry>(cells: &[Option<K>], least: usize) -> Option<K>
    ensures { option_map K.bytes result ≡ lowest_in least (map (option_map K.bytes) cells.now) }
{
    cells
        .iter()
        .find_map(|cell| cell.filter(|x| least <= standing(cells, x)))
}
