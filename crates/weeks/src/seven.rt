// A whole week of seven replicas, with share orders and a sheet. Epoch e has the queue e mod 7.
use crate::groups::{open_all, rest, stand, tell_all};
use crate::members::Member;
use coin::Sheet;
use entry::ShareOrder;
use std::test::*;

// A replica with share orders and a sheet for its coin.
type Dealt = Member<ShareOrder, Sheet>;

const GIVE: [u8; 9] = [1, 0, 12, 0, 34, 0, 0, 0, 100];

// The epoch before whose opening an order is submitted, and the replica.
const ORDERS: [(u16, usize, [u8; 9]); 6] = [
    (0, 1, GIVE),
    (0, 4, GIVE),
    (0, 4, [2, 0, 12, 0, 0, 0, 0, 0, 0]),
    (100, 2, [1, 3, 231, 0, 1, 255, 255, 255, 255]),
    (101, 3, [1, 0, 34, 0, 12, 0, 0, 0, 1]),
    (249, 3, [2, 0, 34, 0, 0, 0, 0, 0, 0]),
];

// The epochs that three replicas open when they keep the order, and four before they do.
const APART: [u16; 2] = [100, 101];

// The sheet's bytes of the epochs 0 to 4; those of epoch e are as those of e mod 5.
const TOSSES: [[u8; 2]; 5] = [
    [0x05, 0x00], // 1 in the rounds 0 and 2
    [0x00, 0x80], // 1 in round 15
    [0xff, 0xfe], // 0 in round 8
    [0x00, 0x01], // 1 in round 8
    [0xaa, 0x55], // 0 in the rounds 0, 2, 4 and 6, and 9, 11, 13 and 15
];

// Why these pages stand in these epochs. But for `APART` an order is kept only after the opening that it is submitted before,
// so it waits for its queue's next epoch. All open that with 1, and it ends with 1 in the first round whose toss is 1.
//   1: the give of replica 1, in round 15.
//   4: slot 0 of queue 4 has the same give, which is in the book, so the slot behind it is written.
//   100: some open with 1 and some with 0. All confirm both bits, and go on with the toss of round 0, which is 1.
//   108: epoch 101 is opened like 100, but the toss is 0, so it ends with 0, and queue 3 has its next epoch here.
//   255: the order comes after epoch 248, where queue 3 was last.
// Every other epoch all open with 0, since its queue keeps nothing that is not in the book, and it ends with 0.
const BOOK: &[u8] = b"book;7;5
epoch;box;slot;kind;from;to;amount
1;1;0;1;12;34;100
4;4;1;2;12;0;0
100;2;0;1;999;1;4294967295
108;3;0;1;34;12;1
255;3;1;2;34;0;0
";

fn sheet() -> Result<Sheet, Fail> {
    let mut bytes = [0; 512];
    for (i, byte) in bytes.iter_mut().enumerate() {
        *byte = TOSSES[i / 2 % 5][i % 2];
    }
    Ok(Sheet::deal(&bytes)?)
}

fn submit_before(members: &mut [Dealt], epoch: u16) -> Result<(), Fail> {
    for (before, owner, order) in ORDERS {
        if before == epoch {
            let member = members.get_mut(owner).ok_or("no member")?;
            member.submits(&order)?;
        }
    }
    Ok(())
}

// All hear all boards, and then each turns until it rests. Tells whether anything altered.
fn exchange(members: &mut [Dealt]) -> Result<bool, Fail> {
    let heard = tell_all(members)?;
    let turned = rest(members)?;
    Ok(heard || turned)
}

// All echo the order, are ready for it and hear that of each other; the first three keep it, and then all open.
fn open_apart(members: &mut [Dealt]) -> Result<(), Fail> {
    exchange(members)?;
    exchange(members)?;
    tell_all(members)?;
    let first = members.get_mut(..3).ok_or("no members")?;
    rest(first)?;
    open_all(members)
}

// Exchanges until one alters nothing: three of each round, and some for the orders and the end of the epoch.
fn settle(members: &mut [Dealt]) -> Result<(), Fail> {
    for _ in 0..64 {
        if !exchange(members)? {
            return Ok(());
        }
    }
    Err(Fail::new("no rest"))
}

#[test]
fn whole_week(rt: HostRuntime) -> Result<(), Fail> {
    let mut members = Vec::new(rt.alloc());
    for me in 0..7 {
        members.push(Member::with(7, me, sheet()?)?)?;
    }
    for epoch in 0..256 {
        submit_before(&mut members, epoch)?;
        if APART.contains(&epoch) {
            open_apart(&mut members)?;
        } else {
            open_all(&mut members)?;
        }
        settle(&mut members)?;
    }
    stand(&rt, &mut members, 256, BOOK)?;
    for member in members.iter_mut() {
        member.opens(Err(18))?;
        member.turns(0)?;
    }
    Ok(())
}
