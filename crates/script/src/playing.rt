// Commands, one by one.
ghost use Rattle.std.specs.Prelude.{◌≡◌, ◌≤◌, length, OnOk};
ghost use Rattle.group.specs.Groups.{group_of};
ghost use Rattle.script.specs.Commands.{Command, calls, prints, command_of};
ghost use Rattle.script.specs.Scripts.{run_of, form_of, room, done, played, Accounts, Runs, Plays};
ghost use Rattle.serving.specs.Serves.{call_in};

use crate::command::Command;
use crate::lines::{push_fault, push_file, push_refused};
use crate::player::Player;
use crate::reading::first;
use coin::Coin;
use entry::Entry;
use serving::Call;
use std::alloc::AllocError;

impl<K: Entry, C: Coin> Player<'_, K, C> {
    // A call at a box.
    fn call(&mut self, at: u8, call: Call<'_>) -> Result<(), AllocError>
        ensures value { OnOk result (run_of K.bytes self.new ≡ done (form_of K.WIDTH K.valid K.heading K.columns) (C.meaning self.old.group.coin) (run_of K.bytes self.old) (calls at (call_in call.entry))) }
        ensures coin { C.meaning self.new.group.coin ≡ C.meaning self.old.group.coin }
        ensures size { length self.new.buffer.items ≡ length self.old.buffer.items }
    {
        match self.group.call(usize::from(at), call) {
            Ok(_) => Ok(()),
            Err(refusal) => push_refused(&mut self.text, refusal),
        }
    }

    // The file of a box.
    fn print(&mut self, at: u8) -> Result<(), AllocError>
        requires room { length self.old.buffer.items ≡ room }
        ensures value { OnOk result (run_of K.bytes self.new ≡ done (form_of K.WIDTH K.valid K.heading K.columns) (C.meaning self.old.group.coin) (run_of K.bytes self.old) (prints at)) }
        ensures coin { C.meaning self.new.group.coin ≡ C.meaning self.old.group.coin }
        ensures size { length self.new.buffer.items ≡ length self.old.buffer.items }
    {
        let Some(member) = self.group.member(usize::from(at)) else {
            return Ok(());
        };
        push_file(&mut self.text, member, &mut self.buffer)
    }

    // One command.
    fn run(&mut self, command: Command<'_>) -> Result<(), AllocError>
        requires few { length (group_of K.bytes self.old.group) ≤ 256 }
        requires room { length self.old.buffer.items ≡ room }
        ensures value { OnOk result (run_of K.bytes self.new ≡ done (form_of K.WIDTH K.valid K.heading K.columns) (C.meaning self.old.group.coin) (run_of K.bytes self.old) (command_of command.entry)) }
        ensures coin { C.meaning self.new.group.coin ≡ C.meaning self.old.group.coin }
        ensures size { length self.new.buffer.items ≡ length self.old.buffer.items }
    {
        match command {
            Command::Call { at, call } => self.call(at, call),
            Command::Print { at } => self.print(at),
            Command::Settle => {
                self.group.settle(&mut self.buffer);
                Ok(())
            }
        }
    }

    // A script, to its end or its first fault.
    #[tactic(auto, using(crate::proofs::Cutting::accounts))]
    pub fn play(&mut self, script: &[u8]) -> Result<(), AllocError>
        requires few { length (group_of K.bytes self.old.group) ≤ 256 }
        requires room { length self.old.buffer.items ≡ room }
        ensures value { OnOk result (run_of K.bytes self.new ≡ played (form_of K.WIDTH K.valid K.heading K.columns) (C.meaning self.old.group.coin) script.now (run_of K.bytes self.old)) }
        ensures runs { Runs (form_of K.WIDTH K.valid K.heading K.columns) (C.meaning self.old.group.coin) script.now (group_of K.bytes self.old.group) }
        ensures plays { Plays (form_of K.WIDTH K.valid K.heading K.columns) (C.meaning self.old.group.coin) script.now (group_of K.bytes self.old.group) }
        ensures accounts { Accounts K.WIDTH (length (group_of K.bytes self.old.group)) script.now }
    {
        let boxes = self.group.members.len();
        let mut rest = script;
        while !rest.is_empty() {
            let Some((command, behind)) = first::<K>(rest, boxes) else {
                return push_fault(&mut self.text, script.len() - rest.len());
            };
            self.run(command)?;
            rest = behind;
        }
        Ok(())
    }
}
