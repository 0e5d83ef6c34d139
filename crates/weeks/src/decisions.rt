// Follow and Decide at their thresholds and one below, and what open and short tables decline.
use crate::members::{Member, SETS, marks};
use coin::Bench;
use replica::{Replica, Stage};
use serving::{Call, serve};
use std::process::Abort;
use std::test::*;
use votes::{Marks, Mask, Votes};

const OPEN: Stage = Stage::Open {
    round: 0,
    closed: false,
};

// Finish of one bit is held from f others, and then from one more.
fn follows(rt: &impl Abort, n: u8, f: u8, bit: bool) -> Result<(), Fail> {
    let me = n.saturating_sub(1);
    let mut member = Member::new(n, me)?;
    member.replica.votes.finish = marks(bit, f)?;
    member.turns(0)?;
    member.replica.votes.finish = marks(bit, f.saturating_add(1))?;
    member.turns(4)?;
    assert_eq!(rt; member.replica.votes.finish.bit(me), Some(bit));
    assert!(rt; member.replica.stage == Stage::Unopened);
    Ok(())
}

// Finish of one bit is held from 2f, the replica with them, and then from one more.
fn decides(rt: &impl Abort, n: u8, f: u8, bit: bool, stage: Stage) -> Result<(), Fail> {
    let mut member = Member::new(n, 0)?;
    member.replica.stage = stage;
    let most = f.saturating_mul(2);
    member.replica.votes.finish = marks(bit, most)?;
    member.turns(0)?;
    member.replica.votes.finish = marks(bit, most.saturating_add(1))?;
    member.turns(5)?;
    if bit {
        assert!(rt; member.replica.stage == Stage::Awaiting);
        assert_eq!(rt; member.replica.epoch, 0);
        member.opens(Err(19))?;
    } else {
        left(rt, &member.replica, false);
    }
    // no page is due, or the next epoch is unopened
    member.turns(0)
}

// Epoch 0 was left, with this finish stated.
fn left(rt: &impl Abort, replica: &Replica, stated: bool) {
    assert_eq!(rt; replica.epoch, 1);
    assert!(rt; replica.stage == Stage::Unopened);
    assert_eq!(rt; replica.past[0], Some(stated));
    assert!(rt; replica.votes.finish == Marks::none());
}

#[test]
fn thresholds(rt: HostRuntime) -> Result<(), Fail> {
    for (n, f, _) in SETS {
        for bit in [false, true] {
            follows(&rt, n, f, bit)?;
            decides(&rt, n, f, bit, Stage::Unopened)?;
            decides(&rt, n, f, bit, OPEN)?;
        }
    }
    Ok(())
}

// Both bits have enough, and the lower is taken. The own finish stays as it was stated.
#[test]
fn lower_bit(rt: HostRuntime) -> Result<(), Fail> {
    for n in [5, 6] {
        let mut member = Member::new(n, 4)?;
        member.replica.votes.finish = Marks {
            zero: Mask(0b01100),
            one: Mask(0b00011),
        };
        member.turns(4)?;
        assert_eq!(rt; member.replica.votes.finish.bit(4), Some(false));
    }
    let mut six = Member::new(6, 0)?;
    six.replica.votes.finish = Marks {
        zero: Mask(0b111000),
        one: Mask(0b000111),
    };
    six.turns(5)?;
    left(&rt, &six.replica, true);
    Ok(())
}

// In every stage of a week, and when it is over.
#[test]
fn open_answers(rt: HostRuntime) -> Result<(), Fail> {
    let mut member = Member::new(4, 0)?;
    member.opens(Ok(()))?;
    assert!(rt; member.replica.stage == OPEN);
    assert_eq!(rt; member.replica.votes.rounds[0].values, marks(false, 1)?);
    member.opens(Err(19))?;
    member.replica.epoch = 255;
    member.opens(Err(19))?;
    member.replica.votes = Votes::none();
    member.replica.votes.finish = marks(false, 3)?;
    member.turns(5)?;
    assert_eq!(rt; member.replica.epoch, 256);
    member.opens(Err(18))?;
    // no finish is followed and none decides when the week is over
    member.replica.votes.finish = Marks {
        zero: Mask(0b1110),
        one: Mask(0),
    };
    member.turns(0)
}

// With one cell short in any table a call changes nothing.
#[test]
fn short_tables(rt: HostRuntime) -> Result<(), Fail> {
    for table in 0..5 {
        let mut member = Member::new(16, 3)?;
        member.replica.votes.finish = marks(true, 11)?;
        let was = member.replica;
        for call in [Call::Turn, Call::Open] {
            let mut tables = member.cells.short(table);
            let answer = serve(&mut member.replica, &mut tables, &mut Bench, call);
            assert_eq!(rt; answer.map_err(u8::from), Err(4));
        }
        assert!(rt; member.replica == was);
    }
    Ok(())
}
