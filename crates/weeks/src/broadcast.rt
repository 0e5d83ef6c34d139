// Turns 2 and 3 at their thresholds and one below, for slot 1 of queue 1.
use crate::members::{Member, SETS};
use checks::memory::{READING, put_at, read};
use entry::Reading;
use replica::Set;
use std::test::*;

// Another reading.
const OTHER: [u8; 8] = [3, 231, 53, 3, 255, 255, 255, 255];

#[derive(Clone, Copy)]
enum Table {
    Echoes,
    Readies,
    Haves,
}

// The place of a sender's cell for the slot.
fn place(n: u8, sender: u8) -> usize {
    usize::from(n)
        .saturating_mul(3)
        .saturating_add(usize::from(sender))
}

fn held(cells: &[Option<Reading>], at: usize) -> Option<Reading> {
    *cells.get(at)?
}

impl Member {
    // Holds an entry from a sender.
    fn holds(&mut self, table: Table, sender: u8, item: &[u8]) -> Result<(), Fail> {
        let at = place(self.replica.set.n, sender);
        let item = read(item)?;
        match table {
            Table::Echoes => put_at(&mut self.cells.echoes, at, item),
            Table::Readies => put_at(&mut self.cells.readies, at, item),
            Table::Haves => put_at(&mut self.cells.haves, at, item),
        }
    }

    // Holds an entry from each of the first senders.
    fn all_hold(&mut self, table: Table, count: u8, item: &[u8]) -> Result<(), Fail> {
        for sender in 0..count {
            self.holds(table, sender, item)?;
        }
        Ok(())
    }

    // Takes turn 2 or 3, and states this entry.
    fn states(&mut self, number: u8, item: &[u8]) -> Result<(), Fail> {
        self.turns(number)?;
        let Set { n, me, .. } = self.replica.set;
        let at = place(n, me);
        let stated = if number == 2 {
            held(&self.cells.readies, at)
        } else {
            held(&self.cells.haves, at)
        };
        if stated != Some(read::<Reading>(item)?) {
            return Err(Fail::new(format_args!("of {n}: {number}, another entry")));
        }
        Ok(())
    }
}

// With one sender fewer the replica rests, and with the last one it takes this turn.
fn reaches(n: u8, me: u8, table: Table, count: u8, number: u8) -> Result<(), Fail> {
    let mut member = Member::new(n, me)?;
    let last = count.saturating_sub(1);
    member.all_hold(table, last, &READING)?;
    member.turns(0)?;
    member.holds(table, last, &READING)?;
    member.states(number, &READING)
}

#[test]
fn thresholds() -> Result<(), Fail> {
    for (n, f, q) in SETS {
        let me = n.saturating_sub(1);
        let some = f.saturating_add(1);
        let most = f.saturating_add(some);
        reaches(n, me, Table::Echoes, q, 2)?;
        reaches(n, me, Table::Readies, some, 2)?;
        // its own ready is counted
        reaches(n, 0, Table::Readies, most, 3)?;
        reaches(n, me, Table::Haves, some, 3)?;
    }
    Ok(())
}

// Enough senders, but one of them with another entry.
#[test]
fn entries_differ() -> Result<(), Fail> {
    for (n, _, q) in SETS {
        let mut member = Member::new(n, n.saturating_sub(1))?;
        let last = q.saturating_sub(1);
        member.all_hold(Table::Echoes, last, &READING)?;
        member.holds(Table::Echoes, last, &OTHER)?;
        member.turns(0)?;
    }
    Ok(())
}

// Each sender from 1 on holds one of two entries: the turn takes the first.
fn takes(n: u8, table: Table, items: [&[u8]; 4], number: u8) -> Result<(), Fail> {
    let mut member = Member::new(n, 0)?;
    for (sender, item) in (1..).zip(items) {
        member.holds(table, sender, item)?;
    }
    member.states(number, &READING)
}

// Both entries are held from two; and one from three, but not from the lowest sender.
#[test]
fn lowest_sender() -> Result<(), Fail> {
    for n in [5, 6] {
        for (table, number) in [(Table::Readies, 2), (Table::Haves, 3)] {
            takes(n, table, [&READING, &OTHER, &OTHER, &READING], number)?;
            takes(n, table, [&READING, &READING, &OTHER, &OTHER], number)?;
            takes(n, table, [&OTHER, &READING, &READING, &READING], number)?;
        }
    }
    Ok(())
}

// The echoes decide before the readies, and the readies before the haves.
#[test]
fn first_condition_first() -> Result<(), Fail> {
    let mut member = Member::new(6, 5)?;
    member.all_hold(Table::Readies, 2, &OTHER)?;
    member.all_hold(Table::Haves, 2, &OTHER)?;
    member.all_hold(Table::Echoes, 4, &READING)?;
    member.states(2, &READING)?;
    for sender in [3, 4] {
        member.holds(Table::Readies, sender, &READING)?;
    }
    member.states(3, &READING)
}
