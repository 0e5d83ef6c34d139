ghost use Rattle.std.specs.Prelude.{◌≡◌};
ghost use Rattle.std.specs.Iterator.{YieldsFirstBy, item_count};
ghost use Rattle.wire.specs.Steps.{step_of, steps_of, left, Walked};

use crate::frame::next;
use crate::part::{Fault, Part};
use crate::parts::Parts;
use entry::Entry;
use std::marker::PhantomData;

// Goes over the statements of a frame, up to its end or its first fault.
pub fn walk<K: Entry>(frame: &[u8]) -> Parts<'_, K>
    ensures value { left K.WIDTH result ≡ steps_of K.WIDTH 0 frame.now }
    ensures walked { Walked K.WIDTH frame.now }
{
    Parts {
        rest: frame,
        place: 0,
        kind: PhantomData,
    }
}

// This is the iterator, so it moves on by what it finds.
impl<'a, K: Entry> Iterator for Parts<'a, K> {
    type Item = Result<Part<'a>, Fault>;

    ghost next_gives = { YieldsFirstBy step_of (left K.WIDTH) };

    ghost remaining = { item_count (left K.WIDTH) };

    fn next(&mut self) -> Option<Result<Part<'a>, Fault>> {
        let place = self.place;
        match next::<K>(self.rest, 0) {
            Ok(None) => None,
            Ok(Some(bytes)) => {
                self.rest = &self.rest[bytes.len()..];
                self.place += bytes.len();
                Some(Ok(Part { place, bytes }))
            }
            Err(refusal) => {
                self.rest = &[];
                Some(Err(Fault { refusal, place }))
            }
        }
    }
}
