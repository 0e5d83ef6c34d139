ghost use Rattle.std.specs.Prelude.{◌≡◌, [], ◌∷◌, ◌++◌, map, None, Some, Ok, Err, OnOk, MatchResult};
ghost use Rattle.std.specs.Option.{option_map};
ghost use Rattle.std.specs.List.{slice_get};
ghost use Rattle.common.specs.Refusals.{number_of};
ghost use Rattle.entry.specs.Columns.{breadth_of};
ghost use Rattle.wire.specs.Statements.{message_of};
ghost use Rattle.listing.specs.Rows.{kind_of, says_of, operands_of, numbers_of, padded, text_of, following, row_of};
ghost use Rattle.listing.specs.Lists.{part_read};

use crate::cells::{push_cell, push_cells, push_number, push_word};
use crate::row::Row;
use common::Refusal;
use entry::Entry;
use std::alloc::AllocError;
use wire::{Fault, Letter, Part, Statement, parse};

// What a letter says, in a word. The words stand one by one: the record's format names them, and a letter has no text.
pub fn says(letter: Letter) -> &'static [u8]
    ensures { result.now ≡ says_of letter }
{
    match letter {
        Letter::Send => b"send",
        Letter::Echo => b"echo",
        Letter::Ready => b"ready",
        Letter::Have => b"have",
        Letter::Value => b"value",
        Letter::Seen => b"seen",
        Letter::Confirm => b"confirm",
        Letter::Finish => b"finish",
    }
}

// Queue, slot, epoch, round, bit and set.
pub fn operands(s: Statement<'_>) -> [Option<u16>; 6]
    ensures { result ≡ operands_of (message_of s.entry) }
{
    match s {
        Statement::Send { slot, .. } => in_slot(None, slot),
        Statement::Echo { queue, slot, .. }
        | Statement::Ready { queue, slot, .. }
        | Statement::Have { queue, slot, .. } => in_slot(Some(queue), slot),
        Statement::Value { epoch, round, bit } | Statement::Seen { epoch, round, bit } => in_epoch(
            epoch,
            Some(round),
            Some(bit),
            None,
        ),
        Statement::Confirm { epoch, round, set } => in_epoch(epoch, Some(round), None, Some(set)),
        Statement::Finish { epoch, bit } => in_epoch(epoch, None, Some(bit), None),
    }
}

fn in_slot(queue: Option<u8>, slot: u8) -> [Option<u16>; 6]
    ensures { result ≡ queue ∷ Some slot ∷ None ∷ None ∷ None ∷ None ∷ [] }
{
    let slot = Some(u16::from(slot));
    [queue.map(u16::from), slot, None, None, None, None]
}

fn in_epoch(epoch: u16, round: Option<u8>, bit: Option<u8>, set: Option<u8>) -> [Option<u16>; 6]
    ensures { result ≡ None ∷ None ∷ Some epoch ∷ round ∷ bit ∷ set ∷ [] }
{
    let round = round.map(u16::from);
    let bit = bit.map(u16::from);
    let set = set.map(u16::from);
    [None, None, Some(epoch), round, bit, set]
}

// How many columns a kind has.
pub fn breadth<K: Entry>() -> usize
    ensures { result ≡ breadth_of K.heading }
{
    1 + K::names().iter().filter(|b| **b == b';').count()
}

// The columns of an entry, each behind a semicolon, or as many empty ones. A column is asked for by its number.
fn push_columns<K: Entry>(out: &mut Vec<u8>, entry: Option<K>) -> Result<(), AllocError>
    ensures { OnOk result (out.new.items ≡ out.old.items ++ following (map text_of (padded (breadth_of K.heading) (numbers_of K.columns (option_map K.bytes entry))))) }
{
    for i in 0..breadth::<K>() {
        push_cell(out, column(&entry, i))?;
    }
    Ok(())
}

// The number in a column, if there is one.
fn column<K: Entry>(entry: &Option<K>, i: usize) -> Option<u32>
    ensures { result ≡ slice_get (numbers_of K.columns (option_map K.bytes entry.now)) i }
{
    entry.as_ref()?.column(i)
}

// The sound statement that a part of a frame is; or a fault, where it is none or its entry is not of the kind.
impl<'a, K: Entry> TryFrom<Part<'a>> for Row<'a, K> {
    type Error = Fault;

    ghost try_from_gives = { λ part read. MatchResult read
        (λ row. part_read (kind_of K.WIDTH K.valid K.heading K.columns) part.place part.bytes.now ≡ Ok (row.place, message_of row.statement))
        (λ fault. part_read (kind_of K.WIDTH K.valid K.heading K.columns) part.place part.bytes.now ≡ Err (number_of fault.refusal, fault.place)) };

    fn try_from(part: Part<'a>) -> Result<Row<'a, K>, Fault> {
        let place = part.place;
        let fault = |refusal| Fault { refusal, place };
        let statement = parse::<K>(part.bytes).map_err(fault)?;
        // a `match`: with `map` and `transpose` the check leaves the error's exit open
        let entry = match statement.item() {
            Some(item) => Some(K::read(item).ok_or(Refusal::Entry).map_err(fault)?),
            None => None,
        };
        Ok(Row {
            place,
            statement,
            entry,
        })
    }
}

impl<K: Entry> Row<'_, K> {
    // Puts the row behind others.
    pub fn push(self, out: &mut Vec<u8>) -> Result<(), AllocError>
        ensures { OnOk result (out.new.items ≡ out.old.items ++ row_of (kind_of K.WIDTH K.valid K.heading K.columns) self.entry.place (message_of self.entry.statement)) }
    {
        let letter = self.statement.letter();
        push_number(out, self.place)?;
        push_word(out, &[u8::from(letter)])?;
        push_word(out, says(letter))?;
        push_cells(out, &operands(self.statement))?;
        push_columns(out, self.entry)?;
        out.push(b'\n')?;
        Ok(())
    }
}
