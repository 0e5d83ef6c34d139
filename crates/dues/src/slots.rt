// Turns 1 to 3, which go by entries.
ghost use Rattle.std.specs.Prelude.{◌≡◌, ℕ, ◌*◌, ◌<◌, ◌≤◌, List, Option, IfSome, map, length};
ghost use Rattle.std.specs.Option.{option_map};
ghost use Rattle.theory.specs.Statement.{Stmt, echo, ready, have};
ghost use Rattle.theory.specs.Search.{first};
ghost use Rattle.theory.specs.Turns.{echo_at, ready_at, have_at};
ghost use Rattle.replica.specs.Fitting.{plan_of, box_of};
ghost use Rattle.dues.specs.Slots.{vouched_of, Finds, Inside, due_as, first_due};

use crate::due::Due;
use crate::thresholds::most;
use cells::Witness;
use entry::Entry;
use replica::{Fitted, Set};

// The first slot where something is due, lowest queue first.
fn first_slot<K: Entry, F: Fn(u8, u8) -> Option<K>>(set: &Set, due: F) -> Option<Due<K>>
    requires callable { (q s : ℕ) → q < set.now.n → s < set.now.w → F.pre due q s }
    ensures within { IfSome result (Inside set.now) }
    ensures value { (st : ℕ → ℕ → List ℕ → Stmt (List ℕ)) (at : ℕ → ℕ → Option (Stmt (List ℕ))) → Finds set.now.n set.now.w K.bytes (F.post due) st at → option_map (due_as K.bytes st) result ≡ first set.now.n (λ q. first set.now.w (at q)) }
{
    for queue in 0..set.n {
        for slot in 0..set.w {
            if let Some(item) = due(queue, slot) {
                return Some(Due { queue, slot, item });
            }
        }
    }
    None
}

// The entry for an echo: the one that the queue's replica sent, if none is echoed.
fn echo_for<K: Entry>(lent: &Fitted<'_, '_, K>, queue: u8, slot: u8) -> Option<K>
    requires low { queue < lent.now.replica.now.set.n }
    requires inside { slot < lent.now.replica.now.set.w }
    ensures { option_map (λ x. echo queue slot (K.bytes x)) result ≡ echo_at (plan_of lent.now) (box_of lent.now) queue slot }
{
    let set = &lent.replica.set;
    let grid = set.grid();
    if lent
        .tables
        .echoes
        .get(grid.place(queue, slot, set.me))
        .is_some()
    {
        return None;
    }
    lent.tables.sends.get(grid.slot_place(queue, slot))
}

// Where nothing is stated for a slot: the entry that enough have in another table, or else some honest one has in this.
fn vouched<K: Entry>(
    set: &Set,
    queue: u8,
    slot: u8,
    stated: &Witness<'_, K>,
    heard: &Witness<'_, K>,
    enough: usize,
) -> Option<K>
    requires low { queue < set.now.n }
    requires inside { slot < set.now.w }
    requires stated { set.now.n * set.now.w * set.now.n ≤ length stated.now.cells.now }
    requires heard { set.now.n * set.now.w * set.now.n ≤ length heard.now.cells.now }
    ensures { option_map K.bytes result ≡ vouched_of set.now queue slot (map (option_map K.bytes) stated.now.cells.now) (map (option_map K.bytes) heard.now.cells.now) enough }
{
    let grid = set.grid();
    if stated.get(grid.place(queue, slot, set.me)).is_some() {
        return None;
    }
    let row = grid.row(queue, slot);
    let n = usize::from(set.n);
    if let Some(item) = heard.lowest(row, n, enough) {
        return Some(item);
    }
    stated.lowest(row, n, usize::from(set.f) + 1)
}

// The entry for a ready.
fn ready_for<K: Entry>(lent: &Fitted<'_, '_, K>, queue: u8, slot: u8) -> Option<K>
    requires low { queue < lent.now.replica.now.set.n }
    requires inside { slot < lent.now.replica.now.set.w }
    ensures { option_map (λ x. ready queue slot (K.bytes x)) result ≡ ready_at (plan_of lent.now) (box_of lent.now) queue slot }
{
    let set = &lent.replica.set;
    let tables = lent.tables;
    let enough = usize::from(set.q);
    vouched(set, queue, slot, &tables.readies, &tables.echoes, enough)
}

// The entry for a have.
fn have_for<K: Entry>(lent: &Fitted<'_, '_, K>, queue: u8, slot: u8) -> Option<K>
    requires low { queue < lent.now.replica.now.set.n }
    requires inside { slot < lent.now.replica.now.set.w }
    ensures { option_map (λ x. have queue slot (K.bytes x)) result ≡ have_at (plan_of lent.now) (box_of lent.now) queue slot }
{
    let set = &lent.replica.set;
    let tables = lent.tables;
    let enough = most(set) as usize;
    vouched(set, queue, slot, &tables.haves, &tables.readies, enough)
}

// Turn 1, Echo.
pub fn echo_due<K: Entry>(lent: &Fitted<'_, '_, K>) -> Option<Due<K>>
    ensures within { IfSome result (Inside lent.now.replica.now.set) }
    ensures value { option_map (due_as K.bytes echo) result ≡ first_due echo_at lent.now }
{
    first_slot(&lent.replica.set, |queue, slot| echo_for(lent, queue, slot))
}

// Turn 2, Ready.
pub fn ready_due<K: Entry>(lent: &Fitted<'_, '_, K>) -> Option<Due<K>>
    ensures within { IfSome result (Inside lent.now.replica.now.set) }
    ensures value { option_map (due_as K.bytes ready) result ≡ first_due ready_at lent.now }
{
    first_slot(
        &lent.replica.set,
        |queue, slot| ready_for(lent, queue, slot),
    )
}

// Turn 3, Keep.
pub fn have_due<K: Entry>(lent: &Fitted<'_, '_, K>) -> Option<Due<K>>
    ensures within { IfSome result (Inside lent.now.replica.now.set) }
    ensures value { option_map (due_as K.bytes have) result ≡ first_due have_at lent.now }
{
    first_slot(&lent.replica.set, |queue, slot| have_for(lent, queue, slot))
}
