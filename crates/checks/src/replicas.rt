// Make, and page. Some tests stand in `trials` too, at other sets: tests stay, and what they stand on is one.
use crate::memory::{
    ALL, Cells, Lengths, READING, asked, begin, begins, just_fits, lacking, makes, read,
};
use entry::Reading;
use replica::{Replica, Set};
use std::test::Fail;

// What the replica of 4 with one slot each needs.
const SMALLEST: Lengths = [4, 16, 16, 16, 4];

#[test]
fn tables_of_a_set() -> Result<(), Fail> {
    just_fits(4, 1, 4, 16)?;
    just_fits(4, 2, 8, 32)?;
    just_fits(4, 16, 64, 256)?;
    just_fits(5, 2, 10, 50)?;
    just_fits(16, 1, 16, 256)
}

// Declined with these numbers, whatever is lent.
fn declined(rows: &[(u8, u8, u8, u8)], lent: Lengths) -> Result<(), Fail> {
    for (n, me, w, number) in rows {
        makes(*n, *me, *w, lent, Err(*number))?;
    }
    Ok(())
}

#[test]
fn numbers_out_of_range() -> Result<(), Fail> {
    let rows = [
        (3, 0, 1, 1),
        (0, 0, 1, 1),
        (17, 0, 1, 1),
        (255, 0, 1, 1),
        (4, 4, 1, 2),
        (4, 255, 1, 2),
        (16, 16, 1, 2),
        (4, 0, 0, 3),
        (4, 0, 17, 3),
        (4, 3, 255, 3),
    ];
    declined(&rows, ALL)
}

#[test]
fn first_check_first() -> Result<(), Fail> {
    let rows = [
        (3, 3, 0, 1),
        (3, 3, 1, 1),
        (17, 0, 17, 1),
        (5, 5, 0, 2),
        (5, 5, 17, 2),
    ];
    declined(&rows, ALL)?;
    let unlent = [
        (3, 0, 1, 1),
        (4, 4, 1, 2),
        (5, 5, 17, 2),
        (4, 0, 0, 3),
        (4, 0, 1, 4),
    ];
    declined(&unlent, [0; 5])
}

// The replica 2 of 4 with one slot each, made in tables of just the lengths it needs.
fn made() -> Result<(Replica, Cells<Reading>), Fail> {
    let mut cells = Cells::of(None, SMALLEST);
    Ok((begin(4, 2, 1, &mut cells)?, cells))
}

#[test]
fn as_it_begins() -> Result<(), Fail> {
    begins(
        &made()?.0,
        Set {
            n: 4,
            me: 2,
            w: 1,
            f: 1,
            q: 3,
        },
    )
}

// The first two pages stand in their cells; a page's epoch is 100 and its place.
fn asks(lent: Lengths, count: u16, place: usize, wanted: Result<u16, u8>) -> Result<(), Fail> {
    let item = read(&READING)?;
    let (replica, mut cells) = made()?;
    cells.write(0, 100, item)?;
    cells.write(1, 101, item)?;
    cells.lent = lent;
    asked(replica, &mut cells, count, place, wanted)
}

#[test]
fn pages_of_a_book() -> Result<(), Fail> {
    asks(SMALLEST, 2, 0, Ok(100))?;
    asks(SMALLEST, 2, 1, Ok(101))?;
    asks([20, 20, 20, 20, 20], 2, 1, Ok(101))?;
    asks(SMALLEST, 2, 2, Err(22))?;
    asks(SMALLEST, 1, 1, Err(22))?;
    asks(SMALLEST, 0, 0, Err(22))?;
    // empty cells below the count, and places past the table
    asks(SMALLEST, 4, 2, Err(22))?;
    asks(SMALLEST, 300, 200, Err(22))?;
    asks(SMALLEST, 2, usize::MAX, Err(22))
}

#[test]
fn pages_of_short_tables() -> Result<(), Fail> {
    for lent in lacking(SMALLEST) {
        asks(lent, 2, 0, Err(4))?;
    }
    asks([0, 0, 0, 0, 0], 0, 0, Err(4))?;
    asks([4, 16, 16, 16, 3], 2, 5, Err(4))
}
