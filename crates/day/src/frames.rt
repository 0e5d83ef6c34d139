ghost use Rattle.std.specs.Prelude.{◌≡◌, OnOk};
ghost use Rattle.replica.specs.Store.{store};
ghost use Rattle.day.specs.Days.{frame_of};

use crate::lines::push_answer;
use crate::record::Record;
use entry::Entry;
use intake::hear;
use replica::{Replica, Tables};
use std::alloc::AllocError;
use wire::walk;

// Hears the statements of a record that is a frame.
pub fn hear_frame<K: Entry>(
    replica: &mut Replica,
    tables: &mut Tables<'_, K>,
    text: &mut Vec<u8>,
    sent: Record<'_>,
) -> Result<(), AllocError>
    ensures { OnOk result ((text.new.items, replica.new, store K.bytes tables.new) ≡ frame_of K.WIDTH K.valid sent.entry.sender sent.entry.start sent.entry.bytes.now (text.old.items, replica.old, store K.bytes tables.old)) }
{
    for step in walk::<K>(sent.bytes) {
        let (place, answer) = match step {
            Ok(part) => (part.place, hear(replica, tables, sent.sender, part.bytes)),
            Err(fault) => (fault.place, Err(fault.refusal)),
        };
        push_answer(text, sent.start + place, answer)?;
    }
    Ok(())
}
