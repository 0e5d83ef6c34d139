// The cells of statements, and holding one.
ghost use Rattle.std.specs.Prelude.{◌≡◌, ◌<◌, true};
ghost use Rattle.common.specs.Refusals.{numbered};
ghost use Rattle.theory.specs.Calls.{ranged};
ghost use Rattle.replica.specs.Store.{store, fits};
ghost use Rattle.replica.specs.View.{plan, box};
ghost use Rattle.replica.specs.Claims.{claim_of};
ghost use Rattle.replica.specs.Fitting.{store_of, plan_of, box_of};
ghost use Rattle.replica.specs.Holding.{vacant_of, held_of, Heard};

use crate::claim::Claim;
use crate::fitted::Fitted;
use crate::lent::Tables;
use crate::settling::settle;
use crate::state::Replica;
use common::Refusal;
use entry::Entry;
use votes::Votes;

impl<K: Entry> Fitted<'_, '_, K> {
    // Whether a sender's cell for the statement is free: 14 if the same is held there, 15 if another.
    pub fn vacant(&self, sender: u8, claim: Claim<K>) -> Result<(), Refusal>
        requires from { sender < self.now.replica.now.set.n }
        requires ranged { ranged (plan_of self.now) (box_of self.now) (claim_of K.bytes claim) ≡ true }
        ensures { numbered result ≡ vacant_of self.now.replica.now (store_of self.now) sender (claim_of K.bytes claim) }
    {
        let grid = self.replica.set.grid();
        let tables = self.tables;
        let Votes { rounds, finish } = &self.replica.votes;
        match claim {
            Claim::Send { slot, item } => {
                settle(tables.sends.get(grid.slot_place(sender, slot)), item)
            }
            Claim::Echo { queue, slot, item } => {
                settle(tables.echoes.get(grid.place(queue, slot, sender)), item)
            }
            Claim::Ready { queue, slot, item } => {
                settle(tables.readies.get(grid.place(queue, slot, sender)), item)
            }
            Claim::Have { queue, slot, item } => {
                settle(tables.haves.get(grid.place(queue, slot, sender)), item)
            }
            Claim::Value { round, bit, .. } => {
                let held = rounds[usize::from(round)].values.has(bit, sender);
                settle(held.then_some(bit), bit)
            }
            Claim::Seen { round, bit, .. } => {
                settle(rounds[usize::from(round)].seens.bit(sender), bit)
            }
            Claim::Confirm { round, set, .. } => {
                settle(rounds[usize::from(round)].confirms.set(sender), set)
            }
            Claim::Finish { bit, .. } => settle(finish.bit(sender), bit),
        }
    }
}

impl Replica {
    // Holds a sender's statement in its cell, in eight arms as `vacant` has: one function that picks the table would be two
    // again, by `&` and by `&mut`. Replica and tables are apart, since a struct of the two `&mut` loses
    // the link to what they are at the end. The tables' arms are answered as a whole: no search finds `heard` there
    // without their `value`.
    #[tactic(auto, using(crate::proofs::Putting::heard_by))]
    pub fn hold<K: Entry>(&mut self, tables: &mut Tables<'_, K>, sender: u8, claim: Claim<K>)
        requires lent { fits self.old.set.n self.old.set.w (store K.bytes tables.old) ≡ true }
        requires from { sender < self.old.set.n }
        requires ranged { ranged (plan self.old) (box self.old (store K.bytes tables.old)) (claim_of K.bytes claim) ≡ true }
        ensures value { (self.new, store K.bytes tables.new) ≡ held_of self.old (store K.bytes tables.old) sender (claim_of K.bytes claim) }
        ensures heard { Heard self.old (store K.bytes tables.old) sender (claim_of K.bytes claim) self.new (store K.bytes tables.new) }
    {
        let grid = self.set.grid();
        match claim {
            Claim::Send { slot, item } => tables.sends.hold(grid.slot_place(sender, slot), item),
            Claim::Echo { queue, slot, item } => tables
                .echoes
                .hold(grid.place(queue, slot, sender), item),
            Claim::Ready { queue, slot, item } => tables
                .readies
                .hold(grid.place(queue, slot, sender), item),
            Claim::Have { queue, slot, item } => tables
                .haves
                .hold(grid.place(queue, slot, sender), item),
            Claim::Value { round, bit, .. } => {
                let round = &mut self.votes.rounds[usize::from(round)];
                round.values = round.values.mark(bit, sender);
            }
            Claim::Seen { round, bit, .. } => {
                let round = &mut self.votes.rounds[usize::from(round)];
                round.seens = round.seens.mark(bit, sender);
            }
            Claim::Confirm { round, set, .. } => {
                let round = &mut self.votes.rounds[usize::from(round)];
                round.confirms = round.confirms.mark_set(Some(set), sender);
            }
            Claim::Finish { bit, .. } => {
                self.votes.finish = self.votes.finish.mark(bit, sender);
            }
        }
    }
}
