// The places of the board.
ghost use Rattle.std.specs.Prelude.{◌≡◌, ◌*◌, ◌<◌, length, None, slice_index_or};
ghost use Rattle.std.specs.Iterator.{YieldsFirstBy, item_count};
ghost use Rattle.std.specs.Option.{option_map};
ghost use Rattle.replica.specs.Claims.{claim_of};
ghost use Rattle.replica.specs.Fitting.{store_of};
ghost use Rattle.replica.specs.Store.{Store};
ghost use Rattle.showing.specs.Boards.{places as board, standing};

use crate::ballots::{finish_at, vote_at};
use crate::slots::{entry_at, send_at};
use common::{EPOCHS, ROUNDS};
use entry::Entry;
use replica::{Claim, Fitted, Replica, Set};
use std::marker::Model;

// The board from a place on, seen as the list of what stands there.
#[derive(Drop)]
pub struct Board<'a, 't, K: Entry> {
    pub lent: Fitted<'a, 't, K>,
    pub place: usize,
}

impl<'a, 't, K: Entry> Model for Board<'a, 't, K> {
    ghost use Rattle.std.specs.Prelude.{ℕ, List};
    ghost use Rattle.theory.specs.Statement.{Stmt};
    ghost use Rattle.replica.specs.Fitting.{store_of};
    ghost use Rattle.showing.specs.Boards.{standing};

    ghost Value = { List (Stmt (List ℕ)) };

    ghost view = { λ b. standing b.place b.lent.replica.now (store_of b.lent) };
}

// The claims that stand there, in their order.
impl<'a, 't, K: Entry> Iterator for Board<'a, 't, K> {
    type Item = Claim<K>;

    ghost next_gives = { YieldsFirstBy (claim_of K.bytes) (λ left. left) };

    ghost remaining = { item_count (λ left. left) };

    // In line, so that a loop over the board works out once what is the same at each place. With `find_map` the pair of place
    // and claim was made anew at each: that was timed.
    #[inline(always)]
    fn next(&mut self) -> Option<Claim<K>> {
        for i in self.place..places(self.lent.replica) {
            if let Some(claim) = claim_at(&self.lent, i) {
                self.place = i + 1;
                return Some(claim);
            }
        }
        None
    }
}

// How many places there are.
fn places(replica: &Replica) -> usize
    ensures { (t : Store) → result ≡ length (board replica.now t) }
{
    let set = &replica.set;
    let (epochs, rounds) = (usize::from(EPOCHS), usize::from(ROUNDS));
    usize::from(set.w) + 3 * slots(set) + epochs + 4 * rounds
}

// How many slots there are in all queues.
fn slots(set: &Set) -> usize
    ensures { result ≡ set.now.n * set.now.w }
{
    set.grid().slots()
}

// What stands at the place `i`.
fn claim_at<K: Entry>(lent: &Fitted<'_, '_, K>, i: usize) -> Option<Claim<K>>
    requires { i < length (board lent.now.replica.now (store_of lent.now)) }
    ensures { option_map (claim_of K.bytes) result ≡ slice_index_or (board lent.now.replica.now (store_of lent.now)) i None }
{
    let set = &lent.replica.set;
    let w = usize::from(set.w);
    if i < w {
        // The slot is below w, which is a byte.
        return send_at(lent, i as u8);
    }
    let i = i - w;
    let entries = 3 * slots(set);
    if i < entries {
        return entry_at(lent, i);
    }
    let i = i - entries;
    let epochs = usize::from(EPOCHS);
    if i < epochs {
        // The epoch is below 256.
        return finish_at(lent.replica, i as u16);
    }
    vote_at(lent.replica, i - epochs)
}
