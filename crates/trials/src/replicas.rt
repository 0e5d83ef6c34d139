// Make, and page.
use checks::memory::{
    ALL, Cells, Lengths, READING, asked, begin, begins, just_fits, lacking, makes, needed, read,
};
use entry::Reading;
use replica::Set;
use std::test::*;

#[test]
fn tables_of_a_set() -> Result<(), Fail> {
    just_fits(4, 1, 4, 16)?;
    just_fits(4, 2, 8, 32)?;
    just_fits(4, 16, 64, 256)?;
    just_fits(5, 2, 10, 50)?;
    just_fits(16, 1, 16, 256)?;
    just_fits(16, 16, 256, 4096)
}

#[test]
fn numbers_out_of_range() -> Result<(), Fail> {
    let rows = [
        (3, 0, 1, 1),
        (0, 0, 1, 1),
        (17, 0, 1, 1),
        (255, 0, 1, 1),
        (4, 4, 1, 2),
        (4, 255, 1, 2),
        (16, 16, 16, 2),
        (4, 0, 0, 3),
        (4, 0, 17, 3),
        (16, 15, 17, 3),
        (4, 3, 255, 3),
        // the first check first
        (3, 3, 0, 1),
        (3, 3, 1, 1),
        (17, 0, 17, 1),
        (5, 5, 0, 2),
        (5, 5, 17, 2),
    ];
    for (n, me, w, number) in rows {
        makes(n, me, w, ALL, Err(number))?;
        makes(n, me, w, [0; 5], Err(number))?;
    }
    makes(4, 0, 1, [0; 5], Err(4))?;
    makes(16, 15, 16, [0; 5], Err(4))
}

#[test]
fn as_it_begins() -> Result<(), Fail> {
    let mut cells = Cells::of(Some(read::<Reading>(&READING)?), ALL);
    let sets = [
        Set {
            n: 4,
            me: 2,
            w: 1,
            f: 1,
            q: 3,
        },
        Set {
            n: 6,
            me: 0,
            w: 2,
            f: 1,
            q: 4,
        },
        Set {
            n: 16,
            me: 15,
            w: 16,
            f: 5,
            q: 11,
        },
    ];
    for set in sets {
        begins(&begin(set.n, set.me, set.w, &mut cells)?, set)?;
    }
    Ok(())
}

// The pages at places 0, 1 and 255 stand in their cells; a page's epoch is 300 and its place.
fn asks(
    n: u8,
    w: u8,
    lent: Lengths,
    count: u16,
    place: usize,
    wanted: Result<u16, u8>,
) -> Result<(), Fail> {
    let item = read(&READING)?;
    let mut cells = Cells::of(Some(item), ALL);
    let replica = begin(n, 2, w, &mut cells)?;
    for (place, epoch) in [(0, 300), (1, 301), (255, 555)] {
        cells.write(place, epoch, item)?;
    }
    cells.lent = lent;
    asked(replica, &mut cells, count, place, wanted)
}

#[test]
fn pages_of_a_book() -> Result<(), Fail> {
    let rows = [
        (2, 0, Ok(300)),
        (2, 1, Ok(301)),
        (2, 2, Err(22)),
        (1, 1, Err(22)),
        (0, 0, Err(22)),
        // an empty cell below the count, and places past the table
        (4, 2, Err(22)),
        (300, 299, Err(22)),
        (2, usize::MAX, Err(22)),
    ];
    for (count, place, wanted) in rows {
        asks(4, 1, needed(4, 1), count, place, wanted)?;
        asks(4, 1, ALL, count, place, wanted)?;
        asks(16, 16, needed(16, 16), count, place, wanted)?;
        asks(16, 16, ALL, count, place, wanted)?;
    }
    asks(16, 16, needed(16, 16), 256, 255, Ok(555))?;
    asks(16, 16, needed(16, 16), 255, 255, Err(22))
}

fn short(n: u8, w: u8) -> Result<(), Fail> {
    for lent in lacking(needed(n, w)) {
        asks(n, w, lent, 2, 0, Err(4))?;
        asks(n, w, lent, 2, 5, Err(4))?;
    }
    asks(n, w, [0; 5], 0, 0, Err(4))
}

#[test]
fn pages_of_short_tables() -> Result<(), Fail> {
    short(4, 1)?;
    short(16, 16)
}
