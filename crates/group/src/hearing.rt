// What one replica states, heard by the others.
ghost use Rattle.std.specs.Prelude.{◌≡◌, ◌≤◌, ◌+◌, fold, length, slice_get, Some, MatchOption};
ghost use Rattle.wire.specs.Frames.{walk_of};
ghost use Rattle.promises.specs.Runs.{kind_of};
ghost use Rattle.group.specs.Groups.{group_of, state_of};
ghost use Rattle.group.specs.Weeks.{course_of, board_at, Part, heard_at, told, aired, all_aired};

use crate::member::{Group, Member};
use coin::Coin;
use entry::Entry;
use serving::Call;
use showing::{Shown, show};
use wire::walk;

impl<K: Entry> Member<'_, K> {
    // What is on its board from a number on, as a frame at the front of the buffer, if something is left.
    fn frame_from(&self, number: usize, buffer: &mut [u8]) -> Option<Shown>
        requires there { number ≤ length (board_at (Some (state_of K.bytes self.now))) }
        requires room { 3 + K.WIDTH ≤ length buffer.old }
        ensures size { length buffer.new ≡ length buffer.old }
        ensures value { MatchOption result (number ≡ length (board_at (Some (state_of K.bytes self.now)))) (λ s. Part K.WIDTH (board_at (Some (state_of K.bytes self.now))) number s.next buffer.new s.bytes) }
    {
        let own = &self.tables;
        let Ok(shown) = show(&self.replica, &own.tables, number, buffer) else {
            return None;
        };
        (number < shown.next).then_some(shown)
    }
}

impl<K: Entry, C: Coin> Group<'_, K, C> {
    // What is on the board of the replica at a place from a number on, as `Member::frame_from`.
    fn frame_at(&self, at: usize, number: usize, buffer: &mut [u8]) -> Option<Shown>
        requires there { number ≤ length (board_at (slice_get (group_of K.bytes self.now) at)) }
        requires room { 3 + K.WIDTH ≤ length buffer.old }
        ensures size { length buffer.new ≡ length buffer.old }
        ensures value { MatchOption result (number ≡ length (board_at (slice_get (group_of K.bytes self.now) at))) (λ s. Part K.WIDTH (board_at (slice_get (group_of K.bytes self.now) at)) number s.next buffer.new s.bytes) }
    {
        self.members.get(at)?.frame_from(number, buffer)
    }

    // One replica hears a statement of another.
    fn hear_at(&mut self, at: usize, sender: u8, bytes: &[u8])
        ensures value { course_of K.bytes self.new ≡ heard_at (kind_of K.WIDTH K.valid) (C.meaning self.old.coin) sender bytes.now (course_of K.bytes self.old) at }
        ensures coin { C.meaning self.new.coin ≡ C.meaning self.old.coin }
    {
        if at == usize::from(sender) {
            return;
        }
        let answer = self.call(at, Call::Hear { sender, bytes });
        self.altered |= answer.is_ok();
    }

    // Every other replica hears a statement of one.
    fn tell(&mut self, sender: u8, bytes: &[u8])
        ensures value { course_of K.bytes self.new ≡ told (kind_of K.WIDTH K.valid) (C.meaning self.old.coin) sender (course_of K.bytes self.old) bytes.now }
        ensures coin { C.meaning self.new.coin ≡ C.meaning self.old.coin }
    {
        for at in 0..self.members.len() {
            self.hear_at(at, sender, bytes);
        }
    }

    // Every other replica hears the statements of a frame.
    fn tell_frame(&mut self, sender: u8, frame: &[u8])
        ensures value { course_of K.bytes self.new ≡ fold (told (kind_of K.WIDTH K.valid) (C.meaning self.old.coin) sender) (course_of K.bytes self.old) (walk_of K.WIDTH frame.now).found }
        ensures coin { C.meaning self.new.coin ≡ C.meaning self.old.coin }
    {
        for step in walk::<K>(frame) {
            if let Ok(part) = step {
                self.tell(sender, part.bytes);
            }
        }
    }

    // Every other replica hears the board of one.
    fn air(&mut self, sender: u8, buffer: &mut [u8])
        requires room { 3 + K.WIDTH ≤ length buffer.old }
        ensures size { length buffer.new ≡ length buffer.old }
        ensures value { course_of K.bytes self.new ≡ aired (kind_of K.WIDTH K.valid) (C.meaning self.old.coin) (course_of K.bytes self.old) sender }
        ensures coin { C.meaning self.new.coin ≡ C.meaning self.old.coin }
    {
        let at = usize::from(sender);
        let mut number = 0;
        while let Some(shown) = self.frame_at(at, number, buffer) {
            self.tell_frame(sender, &buffer[..shown.bytes]);
            number = shown.next;
        }
    }

    // Every other replica hears each board.
    pub(crate) fn exchange(&mut self, buffer: &mut [u8])
        requires few { length (group_of K.bytes self.old) ≤ 256 }
        requires room { 3 + K.WIDTH ≤ length buffer.old }
        ensures size { length buffer.new ≡ length buffer.old }
        ensures value { course_of K.bytes self.new ≡ all_aired (kind_of K.WIDTH K.valid) (C.meaning self.old.coin) (course_of K.bytes self.old) }
        ensures coin { C.meaning self.new.coin ≡ C.meaning self.old.coin }
    {
        for at in 0..self.members.len() {
            // There are at most 256.
            self.air(at as u8, buffer);
        }
    }
}
