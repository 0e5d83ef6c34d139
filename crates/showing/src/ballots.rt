// What the replica holds from itself of votes.
ghost use Rattle.std.specs.Prelude.{◌≡◌, ◌*◌, ◌<◌};
ghost use Rattle.std.specs.Option.{option_map};
ghost use Rattle.common.specs.Limits.{epochs, rounds};
ghost use Rattle.theory.specs.Statement.{at_finish};
ghost use Rattle.theory.specs.Machine.{own};
ghost use Rattle.replica.specs.Claims.{claim_of};
ghost use Rattle.replica.specs.Store.{Store};
ghost use Rattle.replica.specs.View.{box};
ghost use Rattle.showing.specs.Boards.{by_round};

use common::EPOCHS;
use entry::Entry;
use replica::{Claim, Replica};
use std::cmp::Ordering;

// The finish of an epoch: of the current one from the votes, of one that was left from what was kept.
pub fn finish_at<K: Entry>(replica: &Replica, epoch: u16) -> Option<Claim<K>>
    requires { epoch < epochs }
    ensures { (t : Store) → option_map (claim_of K.bytes) result ≡ own (box replica.now t) (at_finish epoch) }
{
    let bit = match epoch.cmp(&replica.epoch) {
        Ordering::Less => replica.past_finish(epoch),
        Ordering::Equal => replica.votes.finish.bit(replica.set.me),
        Ordering::Greater => None,
    };
    bit.map(|bit| Claim::Finish { epoch, bit })
}

// The vote `j` of the current epoch: in each round the values, seen and confirm.
pub fn vote_at<K: Entry>(replica: &Replica, j: usize) -> Option<Claim<K>>
    requires { j < 4 * rounds }
    ensures { (t : Store) → option_map (claim_of K.bytes) result ≡ own (box replica.now t) (by_round replica.now.epoch j) }
{
    let epoch = replica.epoch;
    // Behind the week's end there are none.
    if epoch >= EPOCHS {
        return None;
    }
    let me = replica.set.me;
    let k = j / 4;
    let votes = &replica.votes.rounds[k];
    // The round is below 16.
    let round = k as u8;
    // The order of a round's four votes: a table of four closures would be no plainer.
    match j % 4 {
        0 => votes.values.has(false, me).then_some(Claim::Value {
            epoch,
            round,
            bit: false,
        }),
        1 => votes.values.has(true, me).then_some(Claim::Value {
            epoch,
            round,
            bit: true,
        }),
        2 => votes
            .seens
            .bit(me)
            .map(|bit| Claim::Seen { epoch, round, bit }),
        _ => votes
            .confirms
            .set(me)
            .map(|set| Claim::Confirm { epoch, round, set }),
    }
}
