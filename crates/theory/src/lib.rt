// The theory of the common book. Here live: counting boxes; histories of statements and what follows of them;
// the ledger; a box over a memory of cells, with its ten turns and its calls; the promises of a set of boxes.
// Here live not: bytes, frames, kinds of entry, tables, refusal numbers. A replica's contracts cite the
// definitions of this crate at the view of its own tables.
// The functions do nothing: each asks by its contract for theorems, and without their proofs the crate fails.
#![tactic(auto)]

ghost use Rattle.theory.specs.Count.{Counts};
ghost use Rattle.theory.specs.History.{Agreement};
ghost use Rattle.theory.specs.Book.{LedgerLaws};
ghost use Rattle.theory.specs.Laws.{TurnLaws};
ghost use Rattle.theory.specs.Promises.{Promise};
ghost use Rattle.theory.specs.Script.{Met};

// Large enough sets of boxes share an honest one, and f and Q of the table are as asked, for every N.
pub fn counts_stand() -> u8
    ensures { Counts }
{
    0
}

// Of every legal history: readies and haves, values after a lock, finishes and decided bits agree.
pub fn histories_stand<X: Drop>() -> u8
    ensures { Agreement X }
{
    0
}

// Equal books and heads and kept entries that agree give the same page, and no entry twice.
pub fn ledgers_stand<X: Drop>() -> u8
    ensures { LedgerLaws X }
{
    0
}

// Each of the ten turns, hear, open and submit do what their rules say, and turn does the first that applies.
pub fn turns_stand<X: Drop>() -> u8
    ensures { TurnLaws X }
{
    0
}

// After every fair list of calls: agreement, no repetition, as submitted, as opened, evening out, and nobody awaits a page.
pub fn promises_stand<X: Drop>() -> u8
    ensures { Promise X }
{
    0
}

// A list of calls for four boxes, one of them faulty, meets every premise and writes a page.
pub fn premises_met() -> u8
    ensures { Met }
{
    0
}
