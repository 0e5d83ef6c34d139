// Turns, until every replica rests.
ghost use Rattle.std.specs.Prelude.{◌≡◌};
ghost use Rattle.promises.specs.Runs.{kind_of};
ghost use Rattle.group.specs.Weeks.{course_of, acted, rested, all_rested};

use crate::member::Group;
use coin::Coin;
use entry::Entry;
use serving::Call;

// More turns than a replica can take in a week. `specs/Weeks` has the number again, so that a changed bound changes no promise.
const TURNS: u32 = 65_536;

impl<K: Entry, C: Coin> Group<'_, K, C> {
    // A replica takes a turn, if it has one; whether it had one.
    fn act(&mut self, at: usize) -> bool
        ensures value { (result, course_of K.bytes self.new) ≡ acted (kind_of K.WIDTH K.valid) (C.meaning self.old.coin) at (course_of K.bytes self.old) }
        ensures coin { C.meaning self.new.coin ≡ C.meaning self.old.coin }
    {
        let answer = self.call(at, Call::Turn);
        let acted = answer.is_ok_and(|number| number > 0);
        self.altered |= acted;
        acted
    }

    // A replica turns until it rests.
    fn rest(&mut self, at: usize)
        ensures value { course_of K.bytes self.new ≡ rested (kind_of K.WIDTH K.valid) (C.meaning self.old.coin) (course_of K.bytes self.old) at }
        ensures coin { C.meaning self.new.coin ≡ C.meaning self.old.coin }
    {
        for _ in 0..TURNS {
            if !self.act(at) {
                return;
            }
        }
    }

    // Every replica turns until it rests.
    pub(crate) fn rest_all(&mut self)
        ensures value { course_of K.bytes self.new ≡ all_rested (kind_of K.WIDTH K.valid) (C.meaning self.old.coin) (course_of K.bytes self.old) }
        ensures coin { C.meaning self.new.coin ≡ C.meaning self.old.coin }
    {
        for at in 0..self.members.len() {
            self.rest(at);
        }
    }
}
