// Numbers as text.
ghost use Rattle.std.specs.Prelude.{◌≡◌, length, decimal};
ghost use Rattle.printing.specs.Texts.{cell_of};

use crate::sink::Sink;

// How many digits a number has.
pub fn digits(n: u64) -> usize
    ensures { result ≡ length (decimal n) }
{
    if n < 10 {
        return 1;
    }
    digits(n / 10) + 1
}

// Puts a number behind a semicolon.
pub fn put_cell<S: Sink>(sink: &mut S, n: u64)
    ensures { S.put_gives sink.old (cell_of n) sink.new }
{
    sink.put(b";");
    sink.put_decimal(n);
}
