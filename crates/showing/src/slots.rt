// What the replica holds from itself of entries.
ghost use Rattle.std.specs.Prelude.{◌≡◌, ℕ, ◌*◌, ◌<◌, List, map};
ghost use Rattle.std.specs.Option.{option_map};
ghost use Rattle.theory.specs.Statement.{Stmt, at_send};
ghost use Rattle.theory.specs.Machine.{own};
ghost use Rattle.replica.specs.Claims.{claim_of};
ghost use Rattle.replica.specs.Fitting.{box_of};
ghost use Rattle.showing.specs.Boards.{by_table, own_row};

use cells::Witness;
use entry::Entry;
use replica::{Claim, Fitted, Set};

// The entry that the replica sends in a slot of its own.
pub fn send_at<K: Entry>(lent: &Fitted<'_, '_, K>, slot: u8) -> Option<Claim<K>>
    requires { slot < lent.now.replica.now.set.w }
    ensures { option_map (claim_of K.bytes) result ≡ own (box_of lent.now) (at_send slot) }
{
    let set = &lent.replica.set;
    lent.tables
        .sends
        .get(set.grid().slot_place(set.me, slot))
        .map(|item| Claim::Send { slot, item })
}

// The own entry in a table with a row for each slot, at the slot `j` of all queues, with the queue and the slot. These two
// are worked out for a cell that holds one alone, since most hold none.
fn own_entry<K: Entry>(table: &Witness<'_, K>, set: &Set, j: usize) -> Option<(u8, u8, K)>
    requires { j < set.now.n * set.now.w }
    ensures { (st : ℕ → ℕ → List ℕ → Stmt (List ℕ)) → option_map (λ x. st x.0 x.1 (K.bytes x.2)) result ≡ own_row set.now (map (option_map K.bytes) table.now.cells.now) st j }
{
    let item = table.get(j * usize::from(set.n) + usize::from(set.me))?;
    let (queue, slot) = set.grid().slot_at(j);
    Some((queue, slot, item))
}

// The own entry at the place `i` of the slots of all queues, of the echoes, the readies and then the haves. Each exit
// names a table and its case: a match for the table and a second for the claim would be no plainer.
pub fn entry_at<K: Entry>(lent: &Fitted<'_, '_, K>, i: usize) -> Option<Claim<K>>
    requires { i < 3 * (lent.now.replica.now.set.n * lent.now.replica.now.set.w) }
    ensures { option_map (claim_of K.bytes) result ≡ own (box_of lent.now) (by_table lent.now.replica.now.set i) }
{
    let set = &lent.replica.set;
    let tables = lent.tables;
    let rows = set.grid().slots();
    if i < rows {
        let (queue, slot, item) = own_entry(&tables.echoes, set, i)?;
        return Some(Claim::Echo { queue, slot, item });
    }
    let i = i - rows;
    if i < rows {
        let (queue, slot, item) = own_entry(&tables.readies, set, i)?;
        return Some(Claim::Ready { queue, slot, item });
    }
    let (queue, slot, item) = own_entry(&tables.haves, set, i - rows)?;
    Some(Claim::Have { queue, slot, item })
}
