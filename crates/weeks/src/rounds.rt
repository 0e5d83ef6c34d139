// Turns 7 to 10 at their thresholds and one below, with the bench coin, in epoch 0.
use crate::members::{Member, SETS, marks};
use replica::{Bits, Stage};
use std::process::Abort;
use std::test::*;
use votes::{Marks, Mask, Round};

// The replica is in a round that is not closed.
fn in_round(n: u8, me: u8, round: u8) -> Result<Member, Fail> {
    let mut member = Member::new(n, me)?;
    member.replica.stage = Stage::Open {
        round,
        closed: false,
    };
    Ok(member)
}

// A value from f others in a round that was left, and then from one more.
fn second(rt: &impl Abort, n: u8, f: u8, bit: bool) -> Result<(), Fail> {
    let me = n.saturating_sub(1);
    let mut member = in_round(n, me, 3)?;
    member.replica.votes.rounds[0].values = marks(bit, f)?;
    member.turns(0)?;
    member.replica.votes.rounds[0].values = marks(bit, f.saturating_add(1))?;
    member.turns(7)?;
    assert!(rt; member.replica.votes.rounds[0].values.has(bit, me));
    Ok(())
}

// A value from 2f, the replica with them, and then from one more; then its seen bit from n - f - 1, and from one more.
fn confirms(rt: &impl Abort, n: u8, f: u8, bit: bool) -> Result<(), Fail> {
    let mut member = in_round(n, 0, 0)?;
    let most = f.saturating_mul(2);
    member.replica.votes.rounds[0].values = marks(bit, most)?;
    member.turns(0)?;
    member.replica.votes.rounds[0].values = marks(bit, most.saturating_add(1))?;
    member.turns(8)?;
    assert_eq!(rt; member.replica.votes.rounds[0].seens, marks(bit, 1)?);
    let honest = n.saturating_sub(f);
    member.replica.votes.rounds[0].seens = marks(bit, honest.saturating_sub(1))?;
    member.turns(0)?;
    member.replica.votes.rounds[0].seens = marks(bit, honest)?;
    member.turns(9)?;
    let set = member.replica.votes.rounds[0].confirms.set(0);
    assert_eq!(rt; set, Some(Bits::Only(bit)));
    Ok(())
}

// The votes of a round with one value, whose set so many confirm.
fn confirmed(f: u8, bit: bool, count: u8) -> Result<Round, Fail> {
    Ok(Round {
        values: marks(bit, f.saturating_mul(2).saturating_add(1))?,
        seens: marks(bit, 1)?,
        confirms: marks(bit, count)?,
    })
}

// A set confirmed by n - f - 1, and then by one more. In round 0 the toss is 0.
fn closes(rt: &impl Abort, n: u8, f: u8, bit: bool) -> Result<(), Fail> {
    let mut member = in_round(n, 0, 0)?;
    let honest = n.saturating_sub(f);
    member.replica.votes.rounds[0] = confirmed(f, bit, honest.saturating_sub(1))?;
    member.turns(0)?;
    member.replica.votes.rounds[0] = confirmed(f, bit, honest)?;
    member.turns(10)?;
    let next = Stage::Open {
        round: 1,
        closed: false,
    };
    assert!(rt; member.replica.stage == next);
    assert_eq!(rt; member.replica.votes.rounds[1].values, marks(bit, 1)?);
    let finish = if bit { None } else { Some(false) };
    assert_eq!(rt; member.replica.votes.finish.bit(0), finish);
    Ok(())
}

// In round 15 the toss is 1. No round follows, and it closes once.
fn closes_last(rt: &impl Abort, n: u8, f: u8, bit: bool) -> Result<(), Fail> {
    let mut member = in_round(n, 0, 15)?;
    member.replica.votes.rounds[15] = confirmed(f, bit, n.saturating_sub(f))?;
    let rounds = member.replica.votes.rounds;
    member.turns(10)?;
    let last = Stage::Open {
        round: 15,
        closed: true,
    };
    assert!(rt; member.replica.stage == last);
    assert!(rt; member.replica.votes.rounds == rounds);
    let finish = if bit { Some(true) } else { None };
    assert_eq!(rt; member.replica.votes.finish.bit(0), finish);
    member.turns(0)
}

#[test]
fn thresholds(rt: HostRuntime) -> Result<(), Fail> {
    for (n, f, _) in SETS {
        for bit in [false, true] {
            second(&rt, n, f, bit)?;
            confirms(&rt, n, f, bit)?;
            closes(&rt, n, f, bit)?;
            closes_last(&rt, n, f, bit)?;
        }
    }
    Ok(())
}

// Values from two others: round 0 first, with both its bits, and no round that has not begun.
#[test]
fn second_in_order(rt: HostRuntime) -> Result<(), Fail> {
    let mut member = in_round(4, 0, 1)?;
    let both = Marks {
        zero: Mask(0b0110),
        one: Mask(0b0110),
    };
    member.replica.votes.rounds[0].values = both;
    member.replica.votes.rounds[1].values.one = both.one;
    member.replica.votes.rounds[2].values = both;
    member.turns(7)?;
    let zero = member.replica.votes.rounds[0].values;
    assert_eq!(rt; (zero.zero, zero.one), (Mask(0b0111), Mask(0b0110)));
    member.turns(7)?;
    let one = member.replica.votes.rounds[0].values;
    assert_eq!(rt; (one.zero, one.one), (Mask(0b0111), Mask(0b0111)));
    member.turns(7)?;
    assert_eq!(rt; member.replica.votes.rounds[1].values, marks(true, 3)?);
    member.turns(8)?;
    assert_eq!(rt; member.replica.votes.rounds[1].seens, marks(true, 1)?);
    assert_eq!(rt; member.replica.votes.rounds[2].values, both);
    Ok(())
}

// Both values are held from three, and the lower is seen.
#[test]
fn lower_value_seen(rt: HostRuntime) -> Result<(), Fail> {
    for n in [5, 6] {
        let mut member = in_round(n, 0, 0)?;
        member.replica.votes.rounds[0].values = Marks {
            zero: Mask(0b11001),
            one: Mask(0b00111),
        };
        member.turns(8)?;
        assert_eq!(rt; member.replica.votes.rounds[0].seens, marks(false, 1)?);
    }
    Ok(())
}

// Value 0 from some, value 1 from three, the seen bits 1, 1, 0, 1 and the sets {1}, {1}, both, {1}: the round closes.
fn grown(rt: &impl Abort, zero: Mask, next: bool) -> Result<(), Fail> {
    let mut member = in_round(4, 0, 0)?;
    member.replica.votes.rounds[0].values = Marks {
        zero: Mask(0b0011),
        one: Mask(0b0111),
    };
    member.replica.votes.rounds[0].seens = Marks {
        zero: Mask(0b0100),
        one: Mask(0b1011),
    };
    member.turns(9)?;
    assert_eq!(rt; member.replica.votes.rounds[0].confirms, marks(true, 1)?);
    member.replica.votes.rounds[0].confirms = Marks {
        zero: Mask(0b0100),
        one: Mask(0b1111),
    };
    member.replica.votes.rounds[0].values.zero = zero;
    member.turns(10)?;
    assert_eq!(rt; member.replica.votes.rounds[1].values, marks(next, 1)?);
    assert_eq!(rt; member.replica.votes.finish.bit(0), None);
    Ok(())
}

#[test]
fn values_that_grow(rt: HostRuntime) -> Result<(), Fail> {
    grown(&rt, Mask(0b0011), true)?;
    grown(&rt, Mask(0b0111), false)
}

// A finish that was stated before stays, and no other is stated.
#[test]
fn finish_stated_before(rt: HostRuntime) -> Result<(), Fail> {
    let mut member = in_round(4, 0, 0)?;
    member.replica.votes.finish = marks(true, 1)?;
    member.replica.votes.rounds[0] = confirmed(1, false, 3)?;
    member.turns(10)?;
    assert_eq!(rt; member.replica.votes.finish, marks(true, 1)?);
    assert_eq!(rt; member.replica.votes.rounds[1].values, marks(false, 1)?);
    Ok(())
}
