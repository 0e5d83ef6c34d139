// What show writes, from each number on and into each room.
use crate::worlds::Tried;
use checks::memory::{Cells, begin, needed, put_at, read};
use entry::Reading;
use replica::{Replica, Tables};
use showing::{Shown, show};
use std::process::Abort;
use std::test::*;
use votes::{Marks, Mask};

// What the replica below has on its board, in the fixed order.
const BOARD: [&[u8]; 12] = [
    &[b'S', 0, 0, 12, 7, 1, 0, 0, 13, 72],
    &[b'S', 1, 3, 231, 53, 3, 255, 255, 255, 255],
    &[b'E', 3, 1, 0, 12, 7, 1, 0, 0, 13, 72],
    &[b'R', 0, 0, 3, 231, 53, 3, 255, 255, 255, 255],
    &[b'H', 1, 0, 0, 12, 7, 1, 0, 0, 13, 72],
    &[b'F', 0, 1],
    &[b'F', 1, 0],
    &[b'V', 1, 0, 0],
    &[b'V', 1, 0, 1],
    &[b'A', 1, 0, 1],
    &[b'C', 1, 0, 3],
    &[b'V', 1, 15, 1],
];

// Votes of the replica 2 in epoch 1, and some of others, which are not on its board.
fn vote(replica: &mut Replica) {
    replica.epoch = 1;
    replica.past[0] = Some(true);
    replica.past[5] = Some(true);
    replica.votes.finish = Marks {
        zero: Mask(0x0004),
        one: Mask(0x0008),
    };
    replica.votes.rounds[0].values = Marks {
        zero: Mask(0x0007),
        one: Mask(0x000c),
    };
    replica.votes.rounds[3].values = Marks {
        zero: Mask(0x000b),
        one: Mask(0x0001),
    };
    replica.votes.rounds[15].values = Marks {
        zero: Mask(0),
        one: Mask(0x0004),
    };
    replica.votes.rounds[0].seens = Marks {
        zero: Mask(0),
        one: Mask(0x0004),
    };
    replica.votes.rounds[0].confirms = Marks {
        zero: Mask(0x000c),
        one: Mask(0x0005),
    };
}

// What show answers and writes from a number on with so much room: as many statements as fit, or its refusal, and
// behind them what was there.
fn asked(
    rt: &impl Abort,
    replica: &Replica,
    tables: &Tables<'_, Reading>,
    number: usize,
    room: usize,
) -> Result<(), Fail> {
    let mut out = [0xee; 160];
    assert!(rt; room <= out.len());
    let answer = show(replica, tables, number, &mut out[..room]);
    let mut shown = Shown {
        bytes: 0,
        next: number,
    };
    for statement in BOARD.iter().skip(number) {
        let end = shown.bytes.saturating_add(statement.len());
        if end > room {
            break;
        }
        assert_eq!(rt; out.get(shown.bytes..end), Some(*statement));
        shown = Shown {
            bytes: end,
            next: shown.next.saturating_add(1),
        };
    }
    assert!(rt; out.iter().skip(shown.bytes).all(|b| *b == 0xee));
    let wanted = if number > BOARD.len() {
        Err(20)
    } else if number < BOARD.len() && shown.next == number {
        Err(21)
    } else {
        Ok(shown)
    };
    assert_eq!(rt; answer.map_err(u8::from), wanted);
    Ok(())
}

// The replica 2 of 4 with two slots each shows its board, from every number on and into every room.
#[test]
fn boards(rt: HostRuntime) -> Result<(), Fail> {
    let mut cells = Cells::of(None, needed(4, 2));
    let mut replica = made(&rt, &mut cells)?;
    vote(&mut replica);
    let x = read(Reading::X)?;
    let y = read(Reading::Y)?;
    put_at(&mut cells.sends, 4, x)?;
    put_at(&mut cells.sends, 5, y)?;
    put_at(&mut cells.sends, 6, y)?;
    put_at(&mut cells.echoes, 30, x)?;
    put_at(&mut cells.echoes, 31, y)?;
    put_at(&mut cells.readies, 2, y)?;
    put_at(&mut cells.readies, 3, y)?;
    put_at(&mut cells.haves, 10, x)?;
    let tables = cells.tables();
    for number in 0..15 {
        for room in 0..120 {
            asked(&rt, &replica, &tables, number, room)?;
        }
    }
    Ok(())
}

// The replica 2 of 4 with two slots each, which has nothing on its board.
fn made(rt: &impl Abort, cells: &mut Cells<Reading>) -> Result<Replica, Fail> {
    let replica = begin(4, 2, 2, cells)?;
    let tables = cells.tables();
    let none = Shown { bytes: 0, next: 0 };
    assert_eq!(rt; show(&replica, &tables, 0, &mut []), Ok(none));
    assert_eq!(rt;
        show(&replica, &tables, 1, &mut []).map_err(u8::from),
        Err(20)
    );
    Ok(replica)
}

// With the sends a cell short, whatever is asked.
#[test]
fn short_tables(rt: HostRuntime) -> Result<(), Fail> {
    let mut cells = Cells::of(None, needed(4, 2));
    let replica = made(&rt, &mut cells)?;
    cells.lent = [7, 32, 32, 32, 8];
    let tables = cells.tables();
    let mut out = [0xee; 160];
    assert_eq!(rt;
        show(&replica, &tables, 0, &mut out).map_err(u8::from),
        Err(4)
    );
    assert_eq!(rt;
        show(&replica, &tables, 99, &mut out).map_err(u8::from),
        Err(4)
    );
    Ok(())
}
