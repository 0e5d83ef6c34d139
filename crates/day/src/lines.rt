ghost use Rattle.std.specs.Prelude.{◌≡◌, ◌++◌, OnOk};
ghost use Rattle.common.specs.Refusals.{numbered};
ghost use Rattle.day.specs.Days.{torn_line, line_of};

use arrayvec::ArrayVec;
use common::Refusal;
use std::alloc::AllocError;
use std::io::Write;

// More bytes than a line has, of which the longest has 33.
const LINE: usize = 64;

// The line of an answer to what stands at a place: none if it is accepted. It is put behind the text in one piece, so that
// the text grows by lines.
pub fn push_answer(
    text: &mut Vec<u8>,
    place: usize,
    answer: Result<(), Refusal>,
) -> Result<(), AllocError>
    ensures { OnOk result (text.new.items ≡ text.old.items ++ line_of place (numbered answer)) }
{
    let Err(refusal) = answer else {
        return Ok(());
    };
    let mut line: ArrayVec<u8, LINE> = ArrayVec::new();
    writeln!(line, "refused;{refusal};{place}").map_err(|_| AllocError)?;
    text.extend_from_slice(&line)
}

// The line of a record that the day ends inside of.
pub fn push_torn(text: &mut Vec<u8>, place: usize) -> Result<(), AllocError>
    ensures { OnOk result (text.new.items ≡ text.old.items ++ torn_line place) }
{
    let mut line: ArrayVec<u8, LINE> = ArrayVec::new();
    writeln!(line, "torn;{place}").map_err(|_| AllocError)?;
    text.extend_from_slice(&line)
}
