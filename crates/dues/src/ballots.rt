// The finishes of the current epoch.
ghost use Rattle.std.specs.Prelude.{◌≡◌, ◌<◌};
ghost use Rattle.std.specs.Option.{option_map};
ghost use Rattle.common.specs.Limits.{epochs};
ghost use Rattle.theory.specs.Statement.{finish};
ghost use Rattle.theory.specs.Turns.{follow, decides};
ghost use Rattle.replica.specs.Store.{Store};
ghost use Rattle.replica.specs.View.{plan, box};

use crate::lowest::lowest;
use crate::thresholds::{most, some_honest};
use replica::{Bits, Replica};

// Turn 4, Follow: the bit to finish with.
pub fn follow_due(replica: &Replica) -> Option<bool>
    requires week { replica.now.epoch < epochs }
    ensures { (t : Store) → option_map (finish replica.now.epoch) result ≡ follow (plan replica.now) (box replica.now t) }
{
    let finish = replica.votes.finish;
    let set = &replica.set;
    if finish.bit(set.me).is_some() {
        return None;
    }
    let enough = some_honest(set);
    lowest(Bits::of(
        finish.bit_count(false, set.n) >= enough,
        finish.bit_count(true, set.n) >= enough,
    ))
}

// Turn 5, Decide: the bit.
pub fn decided(replica: &Replica) -> Option<bool>
    requires week { replica.now.epoch < epochs }
    ensures { (t : Store) → result ≡ decides (plan replica.now) (box replica.now t) }
{
    let finish = replica.votes.finish;
    let set = &replica.set;
    let enough = most(set);
    lowest(Bits::of(
        finish.bit_count(false, set.n) >= enough,
        finish.bit_count(true, set.n) >= enough,
    ))
}
