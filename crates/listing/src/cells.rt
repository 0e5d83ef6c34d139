ghost use Rattle.std.specs.Prelude.{◌≡◌, ◌∷◌, ◌++◌, [], map, OnOk};
ghost use Rattle.std.specs.Option.{option_map_or};
ghost use Rattle.listing.specs.Rows.{text_of, following};

use itoa::{Buffer, Integer};
use std::alloc::AllocError;

// A number in decimal. The numbers of a file go to a sink and cannot fail; one text for both is no plainer.
pub fn push_number<I: Integer>(out: &mut Vec<u8>, n: I) -> Result<(), AllocError>
    ensures { OnOk result (out.new.items ≡ out.old.items ++ I.text n) }
{
    out.extend_from_slice(Buffer::new().format(n).as_bytes())
}

// A word behind a semicolon.
pub fn push_word(out: &mut Vec<u8>, word: &[u8]) -> Result<(), AllocError>
    ensures { OnOk result (out.new.items ≡ out.old.items ++ (59 ∷ word.now)) }
{
    out.push(b';')?;
    out.extend_from_slice(word)
}

// One cell behind a semicolon: a number, or nothing.
pub fn push_cell<I: Integer>(out: &mut Vec<u8>, cell: Option<I>) -> Result<(), AllocError>
    ensures { OnOk result (out.new.items ≡ out.old.items ++ (59 ∷ option_map_or I.text cell [])) }
{
    out.push(b';')?;
    match cell {
        Some(n) => push_number(out, n),
        None => Ok(()),
    }
}

// Cells, each behind a semicolon.
pub fn push_cells(out: &mut Vec<u8>, cells: &[Option<u16>]) -> Result<(), AllocError>
    ensures { OnOk result (out.new.items ≡ out.old.items ++ following (map text_of cells.now)) }
{
    for cell in cells {
        push_cell(out, *cell)?;
    }
    Ok(())
}
