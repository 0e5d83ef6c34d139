ghost use Rattle.std.specs.Prelude.{◌≡◌, Some, decimal};
ghost use Rattle.common.specs.Refusals.{number_of};

use std::fmt;

// Why a call declines, with the number that a caller is told.
#[derive(Clone, Copy, Debug, PartialEq, Eq)]
pub enum Refusal {
    // make
    Boxes = 1,
    Own = 2,
    Slots = 3,
    Table = 4,
    // a frame, a statement or an entry by its bytes
    Place = 5,
    Letter = 6,
    Short = 7,
    // hear, some also parse, write and submit
    Sender = 8,
    Long = 9,
    Range = 10,
    Entry = 11,
    Past = 12,
    Future = 13,
    Held = 14,
    Other = 15,
    // submit
    Full = 16,
    Booked = 17,
    // open
    Over = 18,
    Begun = 19,
    // show, and the writing of one statement
    Number = 20,
    Room = 21,
    // page and print
    Page = 22,
    File = 23,
    // sheet
    Sheet = 24,
}

impl From<Refusal> for u8 {
    ghost from_gives = { λ refusal n. n ≡ number_of refusal };

    fn from(refusal: Refusal) -> u8 {
        // A case's number, which `as` alone gives.
        refusal as u8
    }
}

// Its number.
impl fmt::Display for Refusal {
    ghost output = { λ refusal. Some (decimal (number_of refusal)) };

    fn fmt<W: fmt::Write>(&self, f: &mut fmt::Formatter<W>) -> fmt::Result {
        write!(f, "{}", u8::from(*self))
    }
}
