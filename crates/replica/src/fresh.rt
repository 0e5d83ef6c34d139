ghost use Rattle.std.specs.Prelude.{◌≡◌};
ghost use Rattle.replica.specs.Making.{numbers, plain, fresh};

use crate::set::Set;
use crate::state::{Replica, Stage};
use votes::Votes;

impl Replica {
    // A replica that has stated and heard nothing, with an empty book.
    pub(crate) fn fresh(set: Set) -> Replica
        ensures { plain result ≡ fresh (numbers set) }
    {
        Replica {
            set,
            epoch: 0,
            stage: Stage::Unopened,
            votes: Votes::none(),
            past: [None; 256],
            heads: [0; 16],
            pages: 0,
        }
    }
}
