// A replica with its cells, called and then compared as a whole with what it should be.
use arrayvec::ArrayVec;
use checks::memory::{ALL, Cells, Lengths, READING, begin, begun, lacking, needed, put_at, read};
use entry::{Entry, Reading, ShareOrder};
use intake::{hear, submit};
use replica::{Replica, Set, Stage};
use std::test::*;
use votes::{Marks, Round, Votes};

pub const LETTERS: [u8; 8] = [b'S', b'E', b'R', b'H', b'V', b'A', b'C', b'F'];

// Epochs, each with the stage that it is tried in.
pub const STAGES: [(u16, Stage); 4] = [
    (0, Stage::Unopened),
    (
        1,
        Stage::Open {
            round: 0,
            closed: false,
        },
    ),
    (
        254,
        Stage::Open {
            round: 15,
            closed: true,
        },
    ),
    (255, Stage::Awaiting),
];

// What a call answers: the number of the refusal, where it declines, since the number is what a caller is told.
pub type Answer = Result<(), u8>;

// A kind of entry that is tried: the bytes of two entries, and bytes of its width that are none.
pub trait Tried: Entry {
    const X: &'static [u8];

    const Y: &'static [u8];

    const NONE: &'static [u8];
}

impl Tried for Reading {
    const X: &'static [u8] = &READING;

    const Y: &'static [u8] = &[3, 231, 53, 3, 255, 255, 255, 255];

    const NONE: &'static [u8] = &[0, 12, 54, 1, 0, 0, 13, 72];
}

impl Tried for ShareOrder {
    const X: &'static [u8] = &[1, 0, 12, 0, 34, 0, 0, 0, 100];

    const Y: &'static [u8] = &[2, 0, 12, 0, 0, 0, 0, 0, 0];

    const NONE: &'static [u8] = &[1, 0, 12, 0, 12, 0, 0, 0, 100];
}

// A replica with its cells.
#[derive(PartialEq, Drop)]
struct State<K> {
    replica: Replica,
    cells: Cells<K>,
}

// What a replica with its cells is, and what it should be. `n` and `w` are what is tried, before there is a `Set` of
// them: the next replica is made by them, and its own `Set` comes from the code under test.
#[derive(Drop)]
pub struct World<K> {
    pub n: u8,
    pub w: u8,
    got: State<K>,
    wanted: State<K>,
}

// A replica of four in cells that all held an entry.
pub fn made<K: Tried>() -> Result<World<K>, Fail> {
    let got = State::made(4, 0, 1, ALL)?;
    let wanted = State::begun(got.replica.set, needed(4, 1), ALL)?;
    Ok(World {
        n: 4,
        w: 1,
        got,
        wanted,
    })
}

impl<K: Tried> State<K> {
    // Made in cells that all held an old entry.
    fn made(n: u8, me: u8, w: u8, lent: Lengths) -> Result<State<K>, Fail> {
        let mut cells = Cells::of(Some(read(K::Y)?), lent);
        let replica = begin(n, me, w, &mut cells)?;
        Ok(State { replica, cells })
    }

    // What it should be when it was just made, where so many cells are needed.
    fn begun(set: Set, need: Lengths, lent: Lengths) -> Result<State<K>, Fail> {
        let mut cells = Cells::of(Some(read(K::Y)?), lent);
        cells.clear(need);
        let replica = begun(set);
        Ok(State { replica, cells })
    }

    fn lend(&mut self, lent: Lengths) {
        self.cells.lent = lent;
    }

    fn set(&mut self, epoch: u16, stage: Stage, pages: u16) {
        self.replica.epoch = epoch;
        self.replica.stage = stage;
        self.replica.pages = pages;
    }

    fn book(&mut self, place: usize, item: &[u8], count: u16) -> Result<(), Fail> {
        self.replica.pages = count;
        self.cells.write(place, 1, read(item)?)
    }

    // What hear answers to bytes from a sender, or submit to bytes from none.
    fn answer(&mut self, sender: Option<u8>, s: &[u8]) -> Answer {
        let mut tables = self.cells.tables();
        let answer = match sender {
            Some(sender) => hear(&mut self.replica, &mut tables, sender, s),
            None => submit(&mut self.replica, &mut tables, s),
        };
        answer.map_err(u8::from)
    }

    // Fills the cell of a sender's statement with an entry. The place is reckoned here, and the `Grid` is not used: the
    // test is not to go by the code that it tests.
    fn hold(&mut self, sender: u8, head: [u8; 4], item: &[u8]) -> Result<(), Fail> {
        let [letter, a, b, _] = head;
        let Set { n, w, .. } = self.replica.set;
        let own = usize::from(sender) * usize::from(w) + usize::from(a);
        let slot = usize::from(a) * usize::from(w) + usize::from(b);
        let row = slot
            .wrapping_mul(usize::from(n))
            .wrapping_add(usize::from(sender));
        let cells = &mut self.cells;
        match char::from(letter) {
            'S' => put_at(&mut cells.sends, own, read(item)?),
            'E' => put_at(&mut cells.echoes, row, read(item)?),
            'R' => put_at(&mut cells.readies, row, read(item)?),
            'H' => put_at(&mut cells.haves, row, read(item)?),
            _ => Err(Fail::new("no entry")),
        }
    }

    // Marks a sender's vote, or fills the cell of its other statements. The head is the statement's first bytes and no
    // `Statement`, also below: the test is not to go by the code that writes and reads one.
    fn put(&mut self, sender: u8, head: [u8; 4], item: &[u8]) -> Result<(), Fail> {
        let [letter, _, b, c] = head;
        let votes = &mut self.replica.votes;
        match char::from(letter) {
            'V' => mark(&mut round_of(votes, b)?.values, sender, of_bit(c)),
            'A' => mark(&mut round_of(votes, b)?.seens, sender, of_bit(c)),
            'C' => mark(&mut round_of(votes, b)?.confirms, sender, c),
            'F' => mark(&mut votes.finish, sender, of_bit(b)),
            _ => self.hold(sender, head, item),
        }
    }
}

impl<K: Tried> World<K> {
    // Tries each set.
    pub fn sets<F: Fn(&mut Self) -> Result<(), Fail>>(&mut self, tried: F) -> Result<(), Fail>
        requires { F.IsAlwaysCallable tried }
    {
        for n in [4, 5, 6, 7, 16] {
            for w in [1, 2, 16] {
                self.n = n;
                self.w = w;
                tried(self)?;
            }
        }
        Ok(())
    }

    // Makes the replica anew, in cells that all held an old entry.
    pub fn renew(&mut self, me: u8, lent: Lengths) -> Result<(), Fail> {
        let need = needed(self.n, self.w);
        self.got = State::made(self.n, me, self.w, lent)?;
        self.wanted = State::begun(self.got.replica.set, need, lent)?;
        Ok(())
    }

    // The same for the one in the middle, in cells of just the needed number.
    pub fn anew(&mut self) -> Result<(), Fail> {
        self.renew(self.n / 2, needed(self.n, self.w))
    }

    // What is said with one cell short in any table, which comes before all else, and what with all of them lent, be
    // they just enough or more.
    pub fn short<F, G>(&mut self, lacked: F, enough: G) -> Result<(), Fail>
    where
        F: Fn(&mut Self) -> Result<(), Fail>,
        G: Fn(&mut Self) -> Result<(), Fail>,
        requires lacked { F.IsAlwaysCallable lacked }
        requires enough { G.IsAlwaysCallable enough }
    {
        let need = needed(self.n, self.w);
        for all in [need, ALL] {
            self.renew(self.n / 2, all)?;
            for lent in lacking(need) {
                self.lend(lent);
                lacked(self)?;
            }
            self.lend(all);
            enough(self)?;
        }
        Ok(())
    }

    // Here and in three methods below each state has a call of its own: a loop over references to both has no proof
    // by the borrow checker (tried).
    fn lend(&mut self, lent: Lengths) {
        self.got.lend(lent);
        self.wanted.lend(lent);
    }

    // Puts the replica into an epoch and a stage, with so many pages.
    pub fn set(&mut self, epoch: u16, stage: Stage, pages: u16) {
        self.got.set(epoch, stage, pages);
        self.wanted.set(epoch, stage, pages);
    }

    // What a call answers, after which all is as wanted.
    fn calls(&mut self, sender: Option<u8>, s: &[u8], wanted: Answer) -> Result<(), Fail> {
        let answer = self.got.answer(sender, s);
        let (n, w) = (self.n, self.w);
        if answer != wanted || self.got != self.wanted {
            return Err(Fail::new(format_args!(
                "{n}, {w}: {s:?} from {sender:?}: {answer:?} and not {wanted:?}, or not as wanted"
            )));
        }
        Ok(())
    }

    // Hears bytes that change nothing.
    pub fn hears(&mut self, sender: u8, s: &[u8], number: u8) -> Result<(), Fail> {
        self.calls(Some(sender), s, Err(number))
    }

    // Hears a statement: declined, or accepted, which fills its cell and no other.
    pub fn says(
        &mut self,
        sender: u8,
        head: [u8; 4],
        item: &[u8],
        wanted: Answer,
    ) -> Result<(), Fail> {
        if wanted.is_ok() {
            self.wanted.put(sender, head, item)?;
        }
        self.calls(Some(sender), line(head, item)?.as_slice(), wanted)
    }

    // Submits bytes that are declined.
    pub fn declines(&mut self, s: &[u8], number: u8) -> Result<(), Fail> {
        self.calls(None, s, Err(number))
    }

    // Submits an entry that is taken for a slot.
    pub fn takes(&mut self, item: &[u8], slot: u8) -> Result<(), Fail> {
        let me = self.wanted.replica.set.me;
        self.wanted.put(me, [b'S', slot, 0, 0], item)?;
        self.calls(None, item, Ok(()))
    }

    // Holds an own statement with an entry, as if it was stated before.
    pub fn holds(&mut self, head: [u8; 4], item: &[u8]) -> Result<(), Fail> {
        let me = self.wanted.replica.set.me;
        self.got.hold(me, head, item)?;
        self.wanted.hold(me, head, item)
    }

    // Writes an entry on a page, and has so many pages.
    pub fn books(&mut self, place: usize, item: &[u8], count: u16) -> Result<(), Fail> {
        self.got.book(place, item, count)?;
        self.wanted.book(place, item, count)
    }
}

fn round_of(votes: &mut Votes, round: u8) -> Result<&mut Round, Fail> {
    let rounds = &mut votes.rounds;
    Ok(rounds.get_mut(usize::from(round)).ok_or("out of range")?)
}

// The number of the set of one bit, as a confirm has it.
fn of_bit(bit: u8) -> u8 {
    bit.wrapping_add(1)
}

// Marks the bits of a set: 1 is bit 0, 2 is bit 1, and 3 is both. The mask is made apart from the code under test.
fn mark(marks: &mut Marks, sender: u8, set: u8) -> Result<(), Fail> {
    if sender >= 16 {
        return Err(Fail::new("out of range"));
    }
    let bit = 1u16 << sender;
    if set & 1 != 0 {
        marks.zero.0 |= bit;
    }
    if set & 2 != 0 {
        marks.one.0 |= bit;
    }
    Ok(())
}

// The bytes of a statement: as much of a head as its letter has, and its entry, if it has one. They are put together
// here, apart from the code under test.
pub fn line(head: [u8; 4], item: &[u8]) -> Result<ArrayVec<u8, 16>, Fail> {
    let mut line = ArrayVec::new();
    let [letter, a, b, c] = head;
    match char::from(letter) {
        'S' => {
            line.try_extend_from_slice(&[letter, a])?;
            line.try_extend_from_slice(item)?;
        }
        'E' | 'R' | 'H' => {
            line.try_extend_from_slice(&[letter, a, b])?;
            line.try_extend_from_slice(item)?;
        }
        'F' => line.try_extend_from_slice(&[letter, a, b])?,
        _ => line.try_extend_from_slice(&[letter, a, b, c])?,
    }
    Ok(line)
}
