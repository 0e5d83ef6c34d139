// Memory for the tests of a replica, here and in `trials`, and what make and page are to do with it.
// What is not as wanted is a failure of the test, since no handle to assert with comes here.
use entry::{Entry, Reading};
use replica::{Page, Replica, Set, Stage, Tables};
use std::test::Fail;
use votes::{Marks, Mask, Round, Votes};

// How many cells there are of sends, echoes, readies, haves and pages. No struct: the tests spell them in a row, as
// [4, 16, 16, 16, 4].
pub type Lengths = [usize; 5];

pub const ALL: Lengths = [257, 4097, 4097, 4097, 257];

// The bytes of a reading.
pub const READING: [u8; 8] = [0, 12, 7, 1, 0, 0, 13, 72];

// Memory for the largest set, with a cell to spare in each table, and how many cells of each are lent. These are no
// `Tables`, which have only what is lent: the cells past that are compared too, since they must stay as they were.
#[derive(PartialEq, Drop)]
pub struct Cells<K> {
    pub lent: Lengths,
    pub sends: [Option<K>; 257],
    pub echoes: [Option<K>; 4097],
    pub readies: [Option<K>; 4097],
    pub haves: [Option<K>; 4097],
    pub pages: [Option<Page<K>>; 257],
}

impl<K: Entry> Cells<K> {
    // Every cell filled with an entry, or every cell empty.
    pub fn of(item: Option<K>, lent: Lengths) -> Cells<K> {
        Cells {
            lent,
            sends: [item; 257],
            echoes: [item; 4097],
            readies: [item; 4097],
            haves: [item; 4097],
            pages: [item.map(|item| page(1, item)); 257],
        }
    }

    pub fn tables(&mut self) -> Tables<'_, K> {
        let [s, e, r, h, p] = self.lent;
        let sends = &mut self.sends;
        let echoes = &mut self.echoes;
        let readies = &mut self.readies;
        let haves = &mut self.haves;
        let pages = &mut self.pages;
        Tables::lend(
            front(&mut sends[..], s),
            front(&mut echoes[..], e),
            front(&mut readies[..], r),
            front(&mut haves[..], h),
            front(&mut pages[..], p),
        )
    }

    // Empties the first cells, so many of each table.
    pub fn clear(&mut self, count: Lengths) {
        let [s, e, r, h, p] = count;
        front(&mut self.sends, s).fill(None);
        front(&mut self.echoes, e).fill(None);
        front(&mut self.readies, r).fill(None);
        front(&mut self.haves, h).fill(None);
        front(&mut self.pages, p).fill(None);
    }

    // Writes a page at a place.
    pub fn write(&mut self, place: usize, epoch: u16, item: K) -> Result<(), Fail> {
        put_at(&mut self.pages, place, page(epoch, item))
    }
}

fn page<K>(epoch: u16, item: K) -> Page<K> {
    Page {
        epoch,
        queue: 1,
        slot: 0,
        item,
    }
}

// The first cells, so many if there are.
fn front<T>(cells: &mut [T], count: usize) -> &mut [T] {
    let end = count.min(cells.len());
    &mut cells[..end]
}

// Fills the cell at a place.
pub fn put_at<T: Copy>(cells: &mut [Option<T>], at: usize, x: T) -> Result<(), Fail> {
    *cells.get_mut(at).ok_or("out of range")? = Some(x);
    Ok(())
}

pub fn read<K: Entry>(s: &[u8]) -> Result<K, Fail> {
    Ok(K::read(s).ok_or("no entry")?)
}

// How many cells a set needs of each table, reckoned apart from the code under test.
pub fn needed(n: u8, w: u8) -> Lengths {
    let slots = usize::from(n) * usize::from(w);
    let rows = slots * usize::from(n);
    [slots, rows, rows, rows, slots]
}

// One cell less in one table, for each of the tables.
pub fn lacking(enough: Lengths) -> [Lengths; 5] {
    let [s, e, r, h, p] = enough;
    [
        [s.saturating_sub(1), e, r, h, p],
        [s, e.saturating_sub(1), r, h, p],
        [s, e, r.saturating_sub(1), h, p],
        [s, e, r, h.saturating_sub(1), p],
        [s, e, r, h, p.saturating_sub(1)],
    ]
}

// A replica made in these cells.
pub fn begin<K: Entry>(n: u8, me: u8, w: u8, cells: &mut Cells<K>) -> Result<Replica, Fail> {
    Ok(Replica::make(n, me, w, &mut cells.tables())?)
}

// What make answers with so many cells lent, and which of cells that were all filled it leaves empty: so many
// of each table, where it is accepted, and no other. A refusal is wanted by its number, which is what a caller is told.
pub fn makes(n: u8, me: u8, w: u8, lent: Lengths, wanted: Result<Lengths, u8>) -> Result<(), Fail> {
    let item = Some(read::<Reading>(&READING)?);
    let mut cells = Cells::of(item, lent);
    let mut want = Cells::of(item, lent);
    let made = Replica::make(n, me, w, &mut cells.tables());
    want.clear(wanted.unwrap_or([0; 5]));
    let number = made.err().map(u8::from);
    if number != wanted.err() || cells != want {
        return Err(Fail::new(format_args!(
            "{n} {me} {w} {lent:?}: {number:?} and not {wanted:?}, or not as wanted"
        )));
    }
    Ok(())
}

// Accepted with tables of just these lengths and with longer ones, and declined with 4 if one is a cell short.
pub fn just_fits(n: u8, w: u8, slots: usize, rows: usize) -> Result<(), Fail> {
    let enough = [slots, rows, rows, rows, slots];
    makes(n, 0, w, enough, Ok(enough))?;
    makes(n, 3, w, ALL, Ok(enough))?;
    for lent in lacking(enough) {
        makes(n, 0, w, lent, Err(4))?;
    }
    Ok(())
}

// The replica is as one of this set begins.
pub fn begins(replica: &Replica, set: Set) -> Result<(), Fail> {
    if *replica != begun(set) {
        return Err(Fail::new("not as it begins"));
    }
    Ok(())
}

// A replica as it begins: nothing is voted, past or in the book.
pub fn begun(set: Set) -> Replica {
    let unmarked = Marks {
        zero: Mask(0),
        one: Mask(0),
    };
    let round = Round {
        values: unmarked,
        seens: unmarked,
        confirms: unmarked,
    };
    Replica {
        set,
        epoch: 0,
        stage: Stage::Unopened,
        votes: Votes {
            rounds: [round; 16],
            finish: unmarked,
        },
        past: [None; 256],
        heads: [0; 16],
        pages: 0,
    }
}

// What page answers at a place if the book has so many pages: the page's epoch, or the refusal's number.
pub fn asked(
    replica: Replica,
    cells: &mut Cells<Reading>,
    count: u16,
    place: usize,
    wanted: Result<u16, u8>,
) -> Result<(), Fail> {
    let replica = Replica {
        pages: count,
        ..replica
    };
    let page = replica.page(&cells.tables(), place);
    let epoch = page.map(|page| page.epoch).map_err(u8::from);
    if epoch != wanted {
        let lent = cells.lent;
        return Err(Fail::new(format_args!(
            "{lent:?} {count} {place}: {epoch:?} and not {wanted:?}"
        )));
    }
    Ok(())
}
