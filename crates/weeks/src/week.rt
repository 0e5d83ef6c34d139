// A week of four replicas, in which replica 0 submits one reading: the protocol's page from start to end.
use crate::groups::{open_all, stand, tell_all};
use crate::members::Member;
use checks::memory::READING;
use std::process::Abort;
use std::test::*;

type Members = [Member; 4];

// The board of the replica 2 before the page is written.
const BOARD: &[u8] = &[
    b'E', 0, 0, 0, 12, 7, 1, 0, 0, 13, 72, //
    b'R', 0, 0, 0, 12, 7, 1, 0, 0, 13, 72, //
    b'H', 0, 0, 0, 12, 7, 1, 0, 0, 13, 72, //
    b'F', 0, 1, //
    b'V', 0, 0, 1, //
    b'A', 0, 0, 1, //
    b'C', 0, 0, 2, //
    b'V', 0, 1, 1, //
    b'A', 0, 1, 1, //
    b'C', 0, 1, 2, //
    b'V', 0, 2, 1,
];

const ONE: &[u8] = b"book;4;1\nepoch;box;slot;house;week;quantity;amount\n0;0;0;12;7;1;3400\n";

const NONE: &[u8] = b"book;4;0\nepoch;box;slot;house;week;quantity;amount\n";

// Four replicas, of which the first has submitted the reading.
fn begun() -> Result<Members, Fail> {
    let mut first = Member::new(4, 0)?;
    first.submits(&READING)?;
    Ok([
        first,
        Member::new(4, 1)?,
        Member::new(4, 2)?,
        Member::new(4, 3)?,
    ])
}

// All hear all boards, and then each takes these turns and rests.
fn exchange(members: &mut Members, turns: &[u8]) -> Result<(), Fail> {
    tell_all(members)?;
    for member in members.iter_mut() {
        for number in turns {
            member.turns(*number)?;
        }
        member.turns(0)?;
    }
    Ok(())
}

// The replica 2 has this on its board.
fn shown(rt: &impl Abort, members: &mut Members, board: &[u8]) -> Result<(), Fail> {
    let mut out = [0; 160];
    let length = members[2].shows(&mut out)?;
    assert_eq!(rt; out.get(..length), Some(board));
    Ok(())
}

#[test]
fn one_page(rt: HostRuntime) -> Result<(), Fail> {
    let mut members = begun()?;
    exchange(&mut members, &[1])?;
    exchange(&mut members, &[2])?;
    exchange(&mut members, &[3])?;
    open_all(&mut members)?;
    for number in [8, 9, 10, 8, 9, 10] {
        exchange(&mut members, &[number])?;
    }
    stand(&rt, &mut members, 0, NONE)?;
    shown(&rt, &mut members, BOARD)?;
    exchange(&mut members, &[5, 6])?;
    exchange(&mut members, &[])?;
    stand(&rt, &mut members, 1, ONE)?;
    shown(&rt, &mut members, &BOARD[..36])?;
    for member in members.iter_mut() {
        let page = member.replica.page(&member.cells.tables(), 0)?;
        assert_eq!(rt; (page.epoch, page.queue, page.slot), (0, 0, 0));
    }
    Ok(())
}

// All open before the entry is kept, so the epoch ends with 0. The entry is written when its queue's turn comes again.
#[test]
fn opened_early(rt: HostRuntime) -> Result<(), Fail> {
    let mut members = begun()?;
    open_all(&mut members)?;
    exchange(&mut members, &[1, 8])?;
    exchange(&mut members, &[2, 9])?;
    exchange(&mut members, &[3, 10])?;
    exchange(&mut members, &[5])?;
    exchange(&mut members, &[])?;
    stand(&rt, &mut members, 1, NONE)
}
