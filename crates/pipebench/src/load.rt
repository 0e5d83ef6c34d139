// The standard load, and the calls that it makes.
use crate::counts::{Counts, tick};
use crate::digest::Digest;
use coin::Bench;
use entry::Reading;
use group::{Member, blank};
use intake::{hear, submit};
use moves::{open, turn};
use printing::print;
use replica::Set;
use showing::{Shown, show};
use std::alloc::{AllocError, Global};
use wire::walk;

// More frames than a board has statements.
const FRAMES: u32 = 4096;

// More turns than a replica can take in a week.
const TURNS: u32 = 65536;

// More exchanges than a load needs.
const EXCHANGES: u32 = 1048576;

// The reading that a replica submits for a slot: of week 7, with an amount of 256 times the replica, plus the slot.
fn reading(me: u8, slot: u8) -> [u8; 8] {
    let house = 16 * u16::from(me) + u16::from(slot) + 1;
    let [h1, h0] = house.to_be_bytes();
    [h1, h0, 7, 1 + slot % 3, 0, 0, me, slot]
}

// A replica turns until it rests.
fn rest(member: &mut Member<'_, Reading>, counts: &mut Counts) {
    for _ in 0..TURNS {
        tick(&mut counts.turns);
        let answer = turn(&mut member.replica, &mut member.tables.tables, &mut Bench);
        if !answer.is_ok_and(|number| number > 0) {
            return;
        }
        tick(&mut counts.moves);
    }
}

// Replicas at work, by their numbers, and what was counted.
#[derive(Drop)]
pub struct Load<'a> {
    set: Set,
    members: Vec<Member<'a, Reading>>,
    pub counts: Counts,
}

impl<'a> Load<'a> {
    // The replicas of a set, each as it is made.
    pub fn new(heap: Global, set: Set) -> Result<Load<'a>, AllocError> {
        let mut members = Vec::new(heap);
        for me in 0..set.n {
            let tables = blank(heap, set.n, set.w)?;
            if let Ok(member) = Member::make(set.n, me, set.w, tables) {
                members.push(member)?;
            }
        }
        Ok(Load {
            set,
            members,
            counts: Counts::none(),
        })
    }

    // The whole load, up to an epoch that every replica is to reach.
    pub fn run(&mut self, epochs: u16, buffer: &mut [u8]) {
        self.submit_all();
        for _ in 0..EXCHANGES {
            if self.has_reached(epochs) {
                return;
            }
            self.open_all();
            self.exchange(buffer);
            self.rest_all();
        }
    }

    // Every replica submits a reading for each slot of its queue.
    fn submit_all(&mut self) {
        for member in &mut self.members {
            for slot in 0..self.set.w {
                let entry = reading(member.replica.set.me, slot);
                tick(&mut self.counts.submits);
                let _ = submit(&mut member.replica, &mut member.tables.tables, &entry);
            }
        }
    }

    // Whether every replica has reached an epoch.
    fn has_reached(&self, epoch: u16) -> bool {
        self.members
            .iter()
            .all(|member| member.replica.epoch >= epoch)
    }

    // Every replica opens its epoch, or declines to.
    fn open_all(&mut self) {
        for member in &mut self.members {
            tick(&mut self.counts.opens);
            let _ = open(&mut member.replica, &mut member.tables.tables);
        }
    }

    // Every replica's board is heard by all others.
    fn exchange(&mut self, buffer: &mut [u8]) {
        tick(&mut self.counts.exchanges);
        for sender in 0..self.set.n {
            self.air(sender, buffer);
        }
    }

    // The board of one, from its first number to its end.
    fn air(&mut self, sender: u8, buffer: &mut [u8]) {
        let mut number = 0;
        for _ in 0..FRAMES {
            let Some(shown) = self.frame(sender, number, buffer) else {
                return;
            };
            if let Some(frame) = buffer.get(..shown.bytes) {
                self.tell_frame(sender, frame);
            }
            number = shown.next;
        }
    }

    // What stands on a board from a number on, if something does.
    fn frame(&mut self, sender: u8, number: usize, buffer: &mut [u8]) -> Option<Shown> {
        tick(&mut self.counts.shows);
        let member = self.members.get(usize::from(sender))?;
        let shown = show(&member.replica, &member.tables.tables, number, buffer).ok()?;
        (number < shown.next).then_some(shown)
    }

    // A frame is walked, and each statement heard.
    fn tell_frame(&mut self, sender: u8, frame: &[u8]) {
        for step in walk::<Reading>(frame) {
            tick(&mut self.counts.nexts);
            if let Ok(part) = step {
                self.tell(sender, part.bytes);
            }
        }
        tick(&mut self.counts.nexts);
    }

    // Every other replica hears a statement.
    fn tell(&mut self, sender: u8, bytes: &[u8]) {
        for member in &mut self.members {
            if member.replica.set.me == sender {
                continue;
            }
            tick(&mut self.counts.hears);
            if hear(
                &mut member.replica,
                &mut member.tables.tables,
                sender,
                bytes,
            )
            .is_ok()
            {
                tick(&mut self.counts.accepted);
            }
        }
    }

    // Every replica turns until it rests.
    fn rest_all(&mut self) {
        for member in &mut self.members {
            rest(member, &mut self.counts);
        }
    }

    // How many pages the first replica has.
    pub fn pages(&self) -> u16 {
        match self.members.first() {
            Some(member) => member.replica.pages,
            None => 0,
        }
    }

    // The digest of all files, in number order.
    pub fn digest(&mut self, buffer: &mut [u8]) -> Digest {
        let mut digest = Digest::new();
        for member in &self.members {
            tick(&mut self.counts.prints);
            if let Ok(bytes) = print(&member.replica, &member.tables.tables, buffer) {
                if let Some(file) = buffer.get(..bytes) {
                    digest.add(file);
                }
            }
        }
        digest
    }
}
