ghost use Rattle.std.specs.Prelude.{◌≡◌, ◌+◌, ◌<◌, length, IfSome};
ghost use Rattle.std.specs.Iterator.{YieldsFirstBy, item_count};
ghost use Rattle.day.specs.Days.{cut_of, cut_at, found_of, found_left};

use crate::record::{Record, Torn};
use std::marker::Model;

// How many bytes a record has before its own: the number of its box, and the length.
const HEAD: usize = 3;

// The records of a day, seen as the list of what is left of them. Nothing follows a torn one.
#[derive(Drop)]
pub struct Records<'a> {
    day: &'a [u8],
    place: usize,
}

impl<'a> Model for Records<'a> {
    ghost use Rattle.std.specs.Prelude.{◌≤◌, List, length};
    ghost use Rattle.day.specs.Days.{Found, found_left};

    ghost Value = { List Found };

    ghost view = { λ s. found_left s.day.now s.place };

    ghost invariant = { λ s. s.place ≤ length s.day.now };
}

impl<'a> Records<'a> {
    pub fn new(day: &'a [u8]) -> Self
        ensures { result ≡ found_left day.now 0 }
    {
        Records { day, place: 0 }
    }
}

// It moves on by the length of what it found: this is the iterator that the loops go by.
impl<'a> Iterator for Records<'a> {
    type Item = Result<Record<'a>, Torn>;

    ghost next_gives = { YieldsFirstBy found_of (λ left. left) };

    ghost remaining = { item_count (λ left. left) };

    fn next(&mut self) -> Option<Result<Record<'a>, Torn>> {
        let place = self.place;
        if place == self.day.len() {
            return None;
        }
        let Some(record) = record_at(self.day, place) else {
            self.place = self.day.len();
            return Some(Err(Torn { place }));
        };
        self.place = record.start + record.bytes.len();
        Some(Ok(record))
    }
}

// The record at a place, if the day does not end inside of it.
fn record_at(day: &[u8], place: usize) -> Option<Record<'_>>
    requires { place < length day.now }
    ensures cut { cut_of result ≡ cut_at day.now place }
    ensures start { IfSome result (λ r. r.start ≡ place + 3) }
{
    let [sender, high, low, behind @ ..] = &day[place..] else {
        return None;
    };
    let size = usize::from(u16::from_be_bytes([*high, *low]));
    let bytes = behind.get(..size)?;
    Some(Record {
        sender: *sender,
        start: place + HEAD,
        bytes,
    })
}
