// A replica with its cells, and the coin that its turns are lent.
use coin::{Bench, Coin};
use entry::{Entry, Reading};
use replica::{Page, Replica, Tables};
use serving::{Call, serve};
use showing::show;
use std::test::*;
use votes::{Marks, Mask};
use wire::walk;

// Sets: how many replicas, how many may be faulty, and how many equal echoes make a ready.
pub const SETS: [(u8, u8, u8); 5] = [(4, 1, 3), (5, 1, 4), (6, 1, 4), (7, 2, 5), (16, 5, 11)];

// More turns than a replica takes on what it hears in one exchange.
const TURNS: usize = 64;

// Cells for up to sixteen replicas with two slots each. Four of the cells in `checks`, which are for sixteen slots, are
// more than the stack holds (tried).
#[derive(Drop)]
pub struct Cells<K> {
    pub sends: [Option<K>; 32],
    pub echoes: [Option<K>; 512],
    pub readies: [Option<K>; 512],
    pub haves: [Option<K>; 512],
    pub pages: [Option<Page<K>>; 32],
}

impl<K: Entry> Cells<K> {
    fn empty() -> Cells<K> {
        Cells {
            sends: [None; 32],
            echoes: [None; 512],
            readies: [None; 512],
            haves: [None; 512],
            pages: [None; 32],
        }
    }

    pub fn tables(&mut self) -> Tables<'_, K> {
        self.short(5)
    }

    // The same with one cell short in one of the tables.
    pub fn short(&mut self, table: u8) -> Tables<'_, K> {
        let sends = &mut self.sends;
        let echoes = &mut self.echoes;
        let readies = &mut self.readies;
        let haves = &mut self.haves;
        let pages = &mut self.pages;
        Tables::lend(
            behind(&mut sends[..], table == 0),
            behind(&mut echoes[..], table == 1),
            behind(&mut readies[..], table == 2),
            behind(&mut haves[..], table == 3),
            behind(&mut pages[..], table == 4),
        )
    }
}

// The cells behind the first, or all.
fn behind<T>(cells: &mut [T], first: bool) -> &mut [T] {
    let start = usize::from(first).min(cells.len());
    &mut cells[start..]
}

#[derive(Drop)]
pub struct Member<K = Reading, C = Bench> {
    pub replica: Replica,
    pub cells: Cells<K>,
    coin: C,
}

impl Member {
    // A new replica of readings with two slots in each queue, and the bench coin.
    pub fn new(n: u8, me: u8) -> Result<Member, Fail> {
        Member::with(n, me, Bench)
    }
}

impl<K: Entry, C: Coin + Drop> Member<K, C> {
    // A new replica with two slots in each queue, and this coin.
    pub fn with(n: u8, me: u8, coin: C) -> Result<Member<K, C>, Fail> {
        let mut cells = Cells::empty();
        let replica = Replica::make(n, me, 2, &mut cells.tables())?;
        Ok(Member {
            replica,
            cells,
            coin,
        })
    }

    // Makes a call. Answers 0 or the number of a turn, or the refusal's number.
    fn serve(&mut self, call: Call<'_>) -> Result<u8, u8> {
        let mut tables = self.cells.tables();
        serve(&mut self.replica, &mut tables, &mut self.coin, call).map_err(u8::from)
    }

    // Submits an entry.
    pub fn submits(&mut self, item: &[u8]) -> Result<(), Fail> {
        let answer = self.serve(Call::Submit(item));
        answers(self.replica.set.n, answer, Ok(0))
    }

    // Takes a turn, which answers this number.
    pub fn turns(&mut self, wanted: u8) -> Result<(), Fail> {
        let answer = self.serve(Call::Turn);
        answers(self.replica.set.n, answer, Ok(wanted))
    }

    // Turns until it rests, and tells whether it took a turn.
    pub fn rests(&mut self) -> Result<bool, Fail> {
        for taken in 0..TURNS {
            if self.serve(Call::Turn)? == 0 {
                return Ok(taken > 0);
            }
        }
        Err(Fail::new("no rest"))
    }

    // Opens the epoch, or declines with this number.
    pub fn opens(&mut self, wanted: Result<(), u8>) -> Result<(), Fail> {
        let answer = self.serve(Call::Open);
        answers(self.replica.set.n, answer, wanted.map(|()| 0))
    }

    // Writes the whole board to the front of a buffer, and answers how long it is.
    pub fn shows(&mut self, out: &mut [u8]) -> Result<usize, Fail> {
        Ok(show(&self.replica, &self.cells.tables(), 0, out)?.bytes)
    }

    // Hears a board statement by statement, and tells whether it took one in.
    pub fn hears(&mut self, sender: u8, board: &[u8]) -> Result<bool, Fail> {
        let mut taken = false;
        for part in walk::<K>(board) {
            let Ok(part) = part else {
                return Err(Fail::new("no statement"));
            };
            let bytes = part.bytes;
            match self.serve(Call::Hear { sender, bytes }) {
                Ok(_) => taken = true,
                // held already, or of an epoch that was left
                Err(12) | Err(14) => {}
                Err(number) => return Err(Fail::new(format_args!("{number} from {sender}"))),
            }
        }
        Ok(taken)
    }
}

// An answer is as wanted, in a set of n.
pub fn answers(n: u8, answer: Result<u8, u8>, wanted: Result<u8, u8>) -> Result<(), Fail> {
    if answer != wanted {
        return Err(Fail::new(format_args!("of {n}: {answer:?} and not {wanted:?}")));
    }
    Ok(())
}

// The first senders, so many, have marked a bit.
pub fn marks(bit: bool, count: u8) -> Result<Marks, Fail> {
    let none = Mask(0);
    let all = Mask(u16::try_from((1u32 << count.min(16)) - 1)?);
    Ok(if bit {
        Marks {
            zero: none,
            one: all,
        }
    } else {
        Marks {
            zero: all,
            one: none,
        }
    })
}
