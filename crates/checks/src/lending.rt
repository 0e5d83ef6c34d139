// What a caller knows of memory that it lends to a table and has back: what became of each cell.
ghost use Rattle.std.specs.Prelude.{◌≡◌, ◌≤◌, length};
ghost use Rattle.cells.specs.Rows.{emptied};

use cells::Witness;

// How many cells there are. A table that was only asked leaves them as they were.
pub fn counted<T: Copy>(cells: &mut [Option<T>]) -> usize
    ensures count { result ≡ length cells.old }
    ensures same { cells.new ≡ cells.old }
{
    let table = Witness { cells };
    table.len()
}

// Empties the first `n` cells, by a table that is let go.
pub fn cleared<T: Copy>(cells: &mut [Option<T>], n: usize)
    requires { n ≤ length cells.old }
    ensures { cells.new ≡ emptied n cells.old }
{
    let mut table = Witness::over(cells);
    table.clear(n);
}
