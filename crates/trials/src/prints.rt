// What print writes, and what it declines.
use checks::memory::{Cells, Lengths, READING, begin, lacking, needed, put_at, read};
use entry::Reading;
use printing::print;
use replica::Page;
use std::process::Abort;
use std::test::*;

const ONE: &[u8; 69] = b"book;4;1\nepoch;box;slot;house;week;quantity;amount\n0;0;0;12;7;1;3400\n";

const TWO: &[u8; 92] =
    b"book;4;2\nepoch;box;slot;house;week;quantity;amount\n0;0;0;12;7;1;3400\n300;255;10;12;7;1;3400\n";

const NONE: &[u8; 51] = b"book;4;0\nepoch;box;slot;house;week;quantity;amount\n";

// Prints the file of a replica of 4 with one slot each, whose cells hold `held` pages, `count` of them counted; answers
// its length, or the number of the refusal.
fn printed(held: usize, count: u16, out: &mut [u8]) -> Result<Result<usize, u8>, Fail> {
    let item = read::<Reading>(&READING)?;
    let first = Page {
        epoch: 0,
        queue: 0,
        slot: 0,
        item,
    };
    let other = Page {
        epoch: 300,
        queue: 255,
        slot: 10,
        item,
    };
    let mut cells = Cells::of(None, needed(4, 1));
    let mut replica = begin(4, 2, 1, &mut cells)?;
    replica.pages = count;
    let pages = [first, other, other, other];
    for (place, page) in pages.iter().enumerate().take(held) {
        put_at(&mut cells.pages, place, *page)?;
    }
    Ok(print(&replica, &cells.tables(), out).map_err(u8::from))
}

// The text stands at the front, and behind it what was there.
fn stands(rt: &impl Abort, out: &[u8], text: &[u8]) {
    assert_eq!(rt; out.get(..text.len()), Some(text));
    assert!(rt; out.iter().skip(text.len()).all(|b| *b == 7));
}

fn prints(
    rt: &impl Abort,
    held: usize,
    count: u16,
    out: &mut [u8],
    text: &[u8],
) -> Result<(), Fail> {
    assert_eq!(rt; printed(held, count, out)?, Ok(text.len()));
    stands(rt, out, text);
    Ok(())
}

fn declined(rt: &impl Abort, held: usize, count: u16, out: &mut [u8]) -> Result<(), Fail> {
    assert_eq!(rt; printed(held, count, out)?, Err(23));
    stands(rt, out, &[]);
    Ok(())
}

#[test]
fn one_page(rt: HostRuntime) -> Result<(), Fail> {
    prints(&rt, 1, 1, &mut [7; 69], ONE)?;
    prints(&rt, 1, 1, &mut [7; 70], ONE)?;
    prints(&rt, 1, 65535, &mut [7; 100], ONE)?;
    prints(&rt, 4, 1, &mut [7; 100], ONE)?;
    declined(&rt, 1, 1, &mut [7; 68])?;
    declined(&rt, 1, 1, &mut [])
}

#[test]
fn other_counts(rt: HostRuntime) -> Result<(), Fail> {
    prints(&rt, 0, 4, &mut [7; 51], NONE)?;
    prints(&rt, 4, 0, &mut [7; 52], NONE)?;
    prints(&rt, 2, 3, &mut [7; 92], TWO)?;
    prints(&rt, 3, 2, &mut [7; 93], TWO)?;
    declined(&rt, 4, 0, &mut [7; 50])?;
    declined(&rt, 3, 2, &mut [7; 91])
}

// How print declines with tables of these lengths, for a replica of 4.
fn lent(rt: &impl Abort, lengths: Lengths, number: u8) -> Result<(), Fail> {
    let mut cells = Cells::<Reading>::of(None, needed(4, 1));
    let replica = begin(4, 2, 1, &mut cells)?;
    cells.lent = lengths;
    let mut out = [7; 20];
    let answer = print(&replica, &cells.tables(), &mut out);
    assert_eq!(rt; answer.map_err(u8::from), Err(number));
    stands(rt, &out, &[]);
    Ok(())
}

#[test]
fn short_tables(rt: HostRuntime) -> Result<(), Fail> {
    lent(&rt, [4, 16, 16, 16, 4], 23)?;
    lent(&rt, [5, 17, 17, 17, 5], 23)?;
    for lengths in lacking(needed(4, 1)) {
        lent(&rt, lengths, 4)?;
    }
    Ok(())
}
