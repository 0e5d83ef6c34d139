ghost use Rattle.std.specs.Prelude.{◌≡◌, IfOk, OnOk};
ghost use Rattle.replica.specs.Store.{store};
ghost use Rattle.day.specs.Days.{taken_of, day_of, Heard};

use crate::frames::hear_frame;
use crate::lines::{push_answer, push_torn};
use crate::record::Record;
use crate::records::Records;
use entry::Entry;
use intake::submit;
use replica::{Replica, Tables};
use std::alloc::{AllocError, Global};

// Takes in one record: an entry of the replica's own, or a frame from another box. What it changes is passed one
// by one: in a struct that lends all of it, what each is at the end was not known. That was tried.
fn take_in<K: Entry>(
    replica: &mut Replica,
    tables: &mut Tables<'_, K>,
    text: &mut Vec<u8>,
    sent: Record<'_>,
) -> Result<(), AllocError>
    ensures { OnOk result ((text.new.items, replica.new, store K.bytes tables.new) ≡ taken_of K.WIDTH K.valid sent.entry.sender sent.entry.start sent.entry.bytes.now (text.old.items, replica.old, store K.bytes tables.old)) }
{
    if sent.sender != replica.set.me {
        return hear_frame(replica, tables, text, sent);
    }
    let answer = submit(replica, tables, sent.bytes);
    push_answer(text, sent.start, answer)
}

// Replays a day into a replica; answers a line for each entry and statement that is declined.
#[tactic(auto, using(crate::proofs::Hearing::heard))]
pub fn replay<K: Entry>(
    replica: &mut Replica,
    tables: &mut Tables<'_, K>,
    heap: Global,
    day: &[u8],
) -> Result<Vec<u8>, AllocError>
    ensures value { IfOk result (λ text. (text.items, replica.new, store K.bytes tables.new) ≡ day_of K.WIDTH K.valid replica.old (store K.bytes tables.old) day.now) }
    ensures heard { Heard K.WIDTH K.valid }
{
    let mut text = Vec::new(heap);
    for found in Records::new(day) {
        match found {
            Ok(record) => take_in(replica, tables, &mut text, record)?,
            Err(torn) => push_torn(&mut text, torn.place)?,
        }
    }
    Ok(text)
}
