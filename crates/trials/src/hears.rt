// What hear accepts, the one cell that it fills, and what it declines.
use crate::worlds::{Answer, LETTERS, STAGES, Tried, World, line, made};
use checks::memory::ALL;
use entry::{Reading, ShareOrder};
use replica::Stage;
use std::test::*;

// Of every other replica, for each queue and its first and last slot: accepted, then held, then another is held.
fn entries<K: Tried>(world: &mut World<K>) -> Result<(), Fail> {
    world.anew()?;
    let (n, w) = (world.n, world.w);
    for sender in 0..n {
        for slot in 0..w {
            if sender == n / 2 || (0 < slot && slot < w - 1) {
                continue;
            }
            once(world, sender, [b'S', slot, 0, 0])?;
            for queue in 0..n {
                once(world, sender, [b'E', queue, slot, 0])?;
                once(world, sender, [b'R', queue, slot, 0])?;
                once(world, sender, [b'H', queue, slot, 0])?;
            }
        }
    }
    Ok(())
}

fn once<K: Tried>(world: &mut World<K>, sender: u8, head: [u8; 4]) -> Result<(), Fail> {
    world.says(sender, head, K::X, Ok(()))?;
    world.says(sender, head, K::X, Err(14))?;
    world.says(sender, head, K::Y, Err(15))
}

// The last that is in range and the first that is not, and the largest byte.
fn edges<K: Tried>(world: &mut World<K>) -> Result<(), Fail> {
    world.renew(world.n / 2, ALL)?;
    let (n, w) = (world.n, world.w);
    let q = n.wrapping_sub(1);
    let s = w.wrapping_sub(1);
    for (slot, answer) in [(w, Err(10)), (255, Err(10)), (s, Ok(()))] {
        world.says(q, [b'S', slot, 0, 0], K::X, answer)?;
    }
    for letter in [b'E', b'R', b'H'] {
        for (a, b, answer) in [
            (n, s, Err(10)),
            (255, s, Err(10)),
            (q, w, Err(10)),
            (q, 255, Err(10)),
            (q, s, Ok(())),
        ] {
            world.says(q, [letter, a, b, 0], K::X, answer)?;
        }
    }
    for letter in [b'V', b'A'] {
        for (k, v, answer) in [
            (16, 1, Err(10)),
            (255, 0, Err(10)),
            (15, 2, Err(10)),
            (15, 255, Err(10)),
            (15, 1, Ok(())),
        ] {
            world.says(q, [letter, 0, k, v], K::X, answer)?;
        }
    }
    for (k, set) in [(16, 1), (255, 3), (15, 0), (15, 4), (15, 255)] {
        world.says(q, [b'C', 0, k, set], K::X, Err(10))?;
    }
    for (k, set) in [(15, 3), (14, 2), (0, 1)] {
        world.says(q, [b'C', 0, k, set], K::X, Ok(()))?;
    }
    for (bit, answer) in [(2, Err(10)), (255, Err(10)), (1, Ok(()))] {
        world.says(q, [b'F', 0, bit, 0], K::X, answer)?;
    }
    Ok(())
}

// All votes of a sender in an epoch: both values, one seen and one confirm of each round, and one finish.
fn votes<K: Tried>(world: &mut World<K>, sender: u8, e: u8) -> Result<(), Fail> {
    for k in 0..16u8 {
        let (b, c) = (k % 2, k % 3);
        for (bit, answer) in [
            (b, Ok(())),
            (b, Err(14)),
            (1 - b, Ok(())),
            (0, Err(14)),
            (1, Err(14)),
        ] {
            world.says(sender, [b'V', e, k, bit], K::X, answer)?;
        }
        for (bit, answer) in [(b, Ok(())), (b, Err(14)), (1 - b, Err(15))] {
            world.says(sender, [b'A', e, k, bit], K::X, answer)?;
        }
        for (i, answer) in [
            (c, Ok(())),
            (c, Err(14)),
            ((c + 1) % 3, Err(15)),
            ((c + 2) % 3, Err(15)),
        ] {
            world.says(sender, [b'C', e, k, 1 + i % 3], K::X, answer)?;
        }
    }
    let bit = sender % 2;
    world.says(sender, [b'F', e, bit, 0], K::X, Ok(()))?;
    world.says(sender, [b'F', e, bit, 0], K::X, Err(14))?;
    world.says(sender, [b'F', e, 1 - bit, 0], K::X, Err(15))
}

// Votes that are in range, of an epoch that is not the current one.
fn untimely<K: Tried>(world: &mut World<K>, sender: u8, e: u8, answer: Answer) -> Result<(), Fail> {
    world.says(sender, [b'V', e, 0, 0], K::X, answer)?;
    world.says(sender, [b'A', e, 7, 1], K::X, answer)?;
    world.says(sender, [b'C', e, 15, 3], K::X, answer)?;
    world.says(sender, [b'F', e, 1, 0], K::X, answer)
}

// In an epoch and a stage: votes of other epochs, and all votes of the first and of the last replica.
fn epochs<K: Tried>(world: &mut World<K>, epoch: u16, stage: Stage) -> Result<(), Fail> {
    world.anew()?;
    world.set(epoch, stage, 0);
    let last = world.n.wrapping_sub(1);
    let epoch = u8::try_from(epoch)?;
    for e in [0, 1, 127, 128, 129, 254, 255] {
        if e < epoch {
            untimely(world, 0, e, Err(12))?;
        }
        if e > epoch {
            untimely(world, last, e, Err(13))?;
        }
    }
    votes(world, 0, epoch)?;
    votes(world, last, epoch)
}

fn stages<K: Tried>(world: &mut World<K>) -> Result<(), Fail> {
    for (epoch, stage) in STAGES {
        epochs(world, epoch, stage)?;
    }
    let middle = Stage::Open {
        round: 7,
        closed: false,
    };
    epochs(world, 128, middle)
}

// When the week is over, every vote in range is past, and entries are still accepted.
fn week_over<K: Tried>(world: &mut World<K>) -> Result<(), Fail> {
    world.anew()?;
    world.set(256, Stage::Unopened, 0);
    for e in [0, 1, 254, 255] {
        untimely(world, 0, e, Err(12))?;
        world.says(0, [b'V', e, 16, 0], K::X, Err(10))?;
        world.says(0, [b'F', e, 2, 0], K::X, Err(10))?;
    }
    for head in [
        [b'S', 0, 0, 0],
        [b'E', 0, 0, 0],
        [b'R', 1, 0, 0],
        [b'H', 2, 0, 0],
    ] {
        once(world, 0, head)?;
    }
    Ok(())
}

// Every statement: cut at each byte, and with one byte more.
fn cut<K: Tried>(world: &mut World<K>) -> Result<(), Fail> {
    world.anew()?;
    for letter in LETTERS {
        let head = [letter, 0, 0, 1];
        let mut said = line(head, K::X)?;
        for k in 0..said.len() {
            world.hears(0, &said.as_slice()[0..k], 7)?;
        }
        said.try_push(0)?;
        world.hears(0, said.as_slice(), 9)?;
        world.says(0, head, K::X, Ok(()))?;
    }
    Ok(())
}

// Every first byte, and every sender.
fn bytes<K: Tried>(world: &mut World<K>) -> Result<(), Fail> {
    world.anew()?;
    let n = world.n;
    for b in 0..=255u8 {
        let known = LETTERS.contains(&b);
        world.hears(0, &[b], if known { 7 } else { 6 })?;
        world.hears(0, &[b; 16], if known { 9 } else { 6 })?;
        if b < n && b != n / 2 {
            world.says(b, [b'F', 0, b % 2, 0], K::X, Ok(()))?;
        } else {
            world.hears(b, &[b'F', 0, 1], 8)?;
            world.hears(b, &[], 8)?;
            world.hears(b, b"Z", 8)?;
        }
    }
    Ok(())
}

// Whatever is said, with one cell short.
fn lacked<K: Tried>(world: &mut World<K>) -> Result<(), Fail> {
    let n = world.n;
    world.says(0, [b'S', 0, 0, 0], K::X, Err(4))?;
    world.says(0, [b'F', 0, 1, 0], K::X, Err(4))?;
    world.hears(n / 2, &[], 4)?;
    world.hears(n, b"Z", 4)
}

// Every letter, with all cells lent.
fn enough<K: Tried>(world: &mut World<K>) -> Result<(), Fail> {
    for letter in LETTERS {
        world.says(0, [letter, 0, 0, 1], K::X, Ok(()))?;
    }
    Ok(())
}

// Where several conditions hold, the first decides.
fn order<K: Tried>(world: &mut World<K>) -> Result<(), Fail> {
    world.anew()?;
    let (n, w) = (world.n, world.w);
    world.hears(n / 2, &[], 8)?;
    world.hears(0, &[0x46, 7], 7)?;
    world.hears(0, &[0x46, 7, 2, 0], 9)?;
    world.hears(0, &[0x46, 7, 2], 10)?;
    world.hears(0, &[b'E', n, w], 7)
}

fn order_of_lengths<K: Tried>(world: &mut World<K>) -> Result<(), Fail> {
    world.anew()?;
    let (n, w) = (world.n, world.w);
    let mut said = line([b'E', n, w, 0], K::NONE)?;
    said.try_push(0)?;
    world.hears(0, said.as_slice(), 9)?;
    world.says(0, [b'S', w, 0, 0], K::NONE, Err(10))
}

// An entry that is none, with other faults.
fn order_of_entries<K: Tried>(world: &mut World<K>) -> Result<(), Fail> {
    world.anew()?;
    let (n, w) = (world.n, world.w);
    for letter in [b'E', b'R', b'H'] {
        for (queue, slot, number) in [(n, 0, 10), (0, w, 10), (0, 0, 11)] {
            world.says(0, [letter, queue, slot, 0], K::NONE, Err(number))?;
        }
        world.says(0, [letter, 0, 0, 0], K::X, Ok(()))?;
        world.says(0, [letter, 0, 0, 0], K::NONE, Err(11))?;
    }
    Ok(())
}

// A vote of another epoch, where the cell is filled or an operand is out of range.
fn order_of_votes<K: Tried>(world: &mut World<K>) -> Result<(), Fail> {
    world.anew()?;
    world.says(0, [b'F', 0, 1, 0], K::X, Ok(()))?;
    world.set(1, Stage::Unopened, 0);
    world.hears(0, &[0x43, 0, 2, 4], 10)?;
    world.says(0, [b'V', 0, 16, 0], K::X, Err(10))?;
    world.says(0, [b'A', 2, 0, 2], K::X, Err(10))?;
    for (e, bit, number) in [
        (0, 1, 12),
        (0, 0, 12),
        (2, 1, 13),
        (2, 0, 13),
        (1, 1, 14),
        (1, 0, 15),
    ] {
        world.says(0, [b'F', e, bit, 0], K::X, Err(number))?;
    }
    Ok(())
}

// All of one set.
fn all<K: Tried>(world: &mut World<K>) -> Result<(), Fail> {
    entries(world)?;
    edges(world)?;
    stages(world)?;
    week_over(world)?;
    cut(world)?;
    bytes(world)?;
    world.short(lacked, enough)?;
    order(world)?;
    order_of_lengths(world)?;
    order_of_entries(world)?;
    order_of_votes(world)
}

#[test]
fn readings() -> Result<(), Fail> {
    made::<Reading>()?.sets(all)
}

#[test]
fn share_orders() -> Result<(), Fail> {
    made::<ShareOrder>()?.sets(all)
}
