ghost use Rattle.std.specs.Prelude.{◌≡◌, slice_get};
ghost use Rattle.std.specs.Option.{option_map};
ghost use Rattle.common.specs.Refusals.{numbered};
ghost use Rattle.promises.specs.Runs.{kind_of};
ghost use Rattle.serving.specs.Serves.{call_in};
ghost use Rattle.group.specs.Groups.{state_of, group_of, called};

use crate::member::{Group, Member};
use coin::Coin;
use common::Refusal;
use entry::Entry;
use serving::{Call, serve};

impl<'a, K: Entry, C> Group<'a, K, C> {
    // The replica at a place.
    pub fn member(&self, at: usize) -> Option<&Member<'a, K>>
        ensures { option_map (λ x. state_of K.bytes x.now) result ≡ slice_get (group_of K.bytes self.now) at }
    {
        self.members.get(at)
    }
}

impl<K: Entry, C: Coin> Group<'_, K, C> {
    // Makes a call at one replica of the group.
    pub fn call(&mut self, at: usize, call: Call<'_>) -> Result<u8, Refusal>
        ensures value { (numbered result, group_of K.bytes self.new) ≡ called (kind_of K.WIDTH K.valid) (C.meaning self.old.coin) (group_of K.bytes self.old) at (call_in call.entry) }
        ensures coin { C.meaning self.new.coin ≡ C.meaning self.old.coin }
        ensures same { self.new.altered ≡ self.old.altered }
    {
        if at >= self.members.len() {
            return Err(Refusal::Sender);
        }
        let member = &mut self.members[at];
        let own = &mut member.tables;
        serve(&mut member.replica, &mut own.tables, &mut self.coin, call)
    }
}
