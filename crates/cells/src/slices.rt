ghost use Rattle.std.specs.Prelude.{◌≡◌, ◌≤◌, length};
ghost use Rattle.cells.specs.Rows.{emptied};

// Empties the first `n` cells.
pub fn empty<T: Copy>(cells: &mut [Option<T>], n: usize)
    requires { n ≤ length cells.old }
    ensures { cells.new ≡ emptied n cells.old }
{
    cells[..n].fill(None);
}
