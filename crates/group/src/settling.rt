// A group that runs until nothing alters.
ghost use Rattle.std.specs.Prelude.{◌≡◌, ◌≤◌, ◌+◌, length};
ghost use Rattle.promises.specs.Runs.{kind_of};
ghost use Rattle.group.specs.Groups.{group_of};
ghost use Rattle.group.specs.Weeks.{pass, settled, Settles};

use crate::member::Group;
use coin::Coin;
use entry::Entry;

// More passes than a week has that alter something; in `specs/Weeks` again, as the bound of turns is.
const PASSES: u32 = 8_388_608;

impl<K: Entry, C: Coin> Group<'_, K, C> {
    // Every board is heard, then every replica turns until it rests; whether something was altered.
    fn pass(&mut self, buffer: &mut [u8]) -> bool
        requires few { length (group_of K.bytes self.old) ≤ 256 }
        requires room { 3 + K.WIDTH ≤ length buffer.old }
        ensures size { length buffer.new ≡ length buffer.old }
        ensures value { (result, group_of K.bytes self.new) ≡ pass (kind_of K.WIDTH K.valid) (C.meaning self.old.coin) (group_of K.bytes self.old) }
        ensures coin { C.meaning self.new.coin ≡ C.meaning self.old.coin }
    {
        self.altered = false;
        self.exchange(buffer);
        self.rest_all();
        self.altered
    }

    // Passes, until one of them alters nothing.
    #[tactic(auto, using(crate::proofs::Resting::settles))]
    pub fn settle(&mut self, buffer: &mut [u8])
        requires few { length (group_of K.bytes self.old) ≤ 256 }
        requires room { 3 + K.WIDTH ≤ length buffer.old }
        ensures size { length buffer.new ≡ length buffer.old }
        ensures value { group_of K.bytes self.new ≡ settled (kind_of K.WIDTH K.valid) (C.meaning self.old.coin) (group_of K.bytes self.old) }
        ensures coin { C.meaning self.new.coin ≡ C.meaning self.old.coin }
        ensures settles { Settles (kind_of K.WIDTH K.valid) (C.meaning self.old.coin) (group_of K.bytes self.old) }
    {
        for _ in 0..PASSES {
            if !self.pass(buffer) {
                return;
            }
        }
    }
}
