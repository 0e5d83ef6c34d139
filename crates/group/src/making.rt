// A replica with tables of its own.
ghost use Rattle.std.specs.Prelude.{◌≡◌, replicate, None, IfOk};
ghost use Rattle.common.specs.Refusals.{answered};
ghost use Rattle.replica.specs.Store.{store};
ghost use Rattle.replica.specs.Making.{plain, make_of};
ghost use Rattle.group.specs.Makings.{blank, member_made};

use crate::member::{Member, Own};
use cells::Grid;
use common::Refusal;
use entry::Entry;
use replica::{Replica, Tables};
use std::alloc::{AllocError, Global};

// Empty cells, lent for good: their memory is not given back.
fn cells<'a, T: Copy + 'a>(heap: Global, count: usize) -> Result<&'a mut [Option<T>], AllocError>
    ensures { IfOk result (λ cells. cells.now ≡ replicate count None) }
{
    Ok(vec![in heap; None; count]?.leak())
}

// Empty tables, just long enough for a set.
pub fn blank<'a, K: Entry + 'a>(heap: Global, n: u8, w: u8) -> Result<Tables<'a, K>, AllocError>
    ensures { IfOk result (λ t. store K.bytes t ≡ blank n w) }
{
    let grid = Grid { n, w };
    let (slots, rows) = (grid.slots(), grid.row_cells());
    Ok(Tables::lend(
        cells(heap, slots)?,
        cells(heap, rows)?,
        cells(heap, rows)?,
        cells(heap, rows)?,
        cells(heap, slots)?,
    ))
}

impl<'a, K: Entry> Member<'a, K> {
    // The replica `me` of `n` with `w` slots each, which takes these tables as its own.
    pub fn make(n: u8, me: u8, w: u8, mut tables: Tables<'a, K>) -> Result<Member<'a, K>, Refusal>
        ensures { member_made (answered (λ x. (plain x.replica, store K.bytes x.tables)) result) (make_of n me w (store K.bytes tables.entry)) }
    {
        let replica = Replica::make(n, me, w, &mut tables)?;
        Ok(Member {
            replica,
            tables: Own { tables },
        })
    }
}
