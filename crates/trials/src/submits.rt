// What submit accepts, the slot that it takes, and what it declines.
use crate::worlds::{STAGES, Tried, World, line, made};
use checks::memory::{ALL, needed};
use entry::{Reading, ShareOrder};
use replica::Stage;
use std::test::*;

// What the width and the kind decline, whatever else holds.
fn unread<K: Tried>(world: &mut World<K>) -> Result<(), Fail> {
    let x = K::X;
    for k in 0..x.len() {
        world.declines(&x[0..k], 7)?;
    }
    let mut long = line([b'S', 0, 0, 0], x)?;
    long.try_push(0)?;
    world.declines(long.as_slice().get(2..).ok_or("no entry")?, 9)?;
    world.declines(K::NONE, 11)
}

// Slots are taken lowest first, whatever others state and whatever is kept, until all are used.
fn slots<K: Tried>(world: &mut World<K>, epoch: u16, stage: Stage) -> Result<(), Fail> {
    world.anew()?;
    world.set(epoch, stage, 0);
    unread(world)?;
    let (n, w) = (world.n, world.w);
    for letter in [b'E', b'R', b'H'] {
        world.says(0, [letter, n / 2, 0, 0], K::Y, Ok(()))?;
    }
    world.says(0, [b'S', 0, 0, 0], K::Y, Ok(()))?;
    world.holds([b'H', n / 2, 0, 0], K::Y)?;
    for slot in 0..w {
        world.takes(K::X, slot)?;
    }
    full(world)
}

// All slots are used, which comes before the book.
fn full<K: Tried>(world: &mut World<K>) -> Result<(), Fail> {
    unread(world)?;
    world.declines(K::X, 16)?;
    world.declines(K::Y, 16)?;
    world.books(0, K::X, 1)?;
    world.declines(K::X, 16)
}

fn stages<K: Tried>(world: &mut World<K>) -> Result<(), Fail> {
    for (epoch, stage) in STAGES {
        slots(world, epoch, stage)?;
    }
    slots(world, 256, Stage::Unopened)
}

// A slot between used ones.
fn gaps<K: Tried>(world: &mut World<K>) -> Result<(), Fail> {
    world.w = 16;
    world.renew(3, ALL)?;
    for slot in [1, 2, 4, 15] {
        world.holds([b'S', slot, 0, 0], K::Y)?;
    }
    for slot in [0, 3, 5, 6, 7, 8, 9, 10, 11, 12, 13, 14] {
        world.takes(K::X, slot)?;
    }
    world.declines(K::X, 16)
}

// Makes the replica 0 anew.
fn first<K: Tried>(world: &mut World<K>) -> Result<(), Fail> {
    world.renew(0, needed(world.n, world.w))
}

// In the book, at its first place.
fn booked<K: Tried>(world: &mut World<K>) -> Result<(), Fail> {
    first(world)?;
    world.books(0, K::X, 1)?;
    unread(world)?;
    world.declines(K::X, 17)?;
    world.takes(K::Y, 0)
}

// At the last place of a full book, and just past the last page.
fn last<K: Tried>(world: &mut World<K>) -> Result<(), Fail> {
    first(world)?;
    let count = u16::from(world.n) * u16::from(world.w);
    let end = count.saturating_sub(1);
    for place in 0..end {
        world.books(usize::from(place), K::Y, 0)?;
    }
    world.books(usize::from(end), K::X, count)?;
    world.declines(K::X, 17)?;
    world.declines(K::Y, 17)?;
    world.set(0, Stage::Unopened, end);
    world.declines(K::Y, 17)?;
    world.takes(K::X, 0)
}

// Whatever is submitted, with one cell short.
fn lacked<K: Tried>(world: &mut World<K>) -> Result<(), Fail> {
    world.declines(K::X, 4)?;
    world.declines(K::NONE, 4)?;
    world.declines(&[], 4)
}

fn enough<K: Tried>(world: &mut World<K>) -> Result<(), Fail> {
    world.takes(K::X, 0)
}

// All of one set, and at the end what is tried with 16 slots.
fn all<K: Tried>(world: &mut World<K>) -> Result<(), Fail> {
    stages(world)?;
    booked(world)?;
    last(world)?;
    world.short(lacked, enough)?;
    gaps(world)
}

#[test]
fn readings() -> Result<(), Fail> {
    made::<Reading>()?.sets(all)
}

#[test]
fn share_orders() -> Result<(), Fail> {
    made::<ShareOrder>()?.sets(all)
}
