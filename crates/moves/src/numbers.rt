ghost use Rattle.std.specs.Prelude.{◌≡◌};
ghost use Rattle.theory.specs.Calls.{number};
ghost use Rattle.replica.specs.declared.state.Replica.{Replica};
ghost use Rattle.replica.specs.Store.{Store};
ghost use Rattle.moves.specs.Moves.{move_of};

use crate::moves::Move;
use entry::Entry;

impl<K: Entry> Move<K> {
    // The number of its turn.
    pub fn number(&self) -> u8
        ensures { (m : Replica) (t : Store) → result ≡ number (move_of K.bytes m t self.now).0 }
    {
        match self {
            Move::Echo(_) => 1,
            Move::Ready(_) => 2,
            Move::Keep(_) => 3,
            Move::Follow(_) => 4,
            Move::Decide(_) => 5,
            Move::Write { .. } => 6,
            Move::Second { .. } => 7,
            Move::See { .. } => 8,
            Move::Confirm { .. } => 9,
            Move::Close { .. } => 10,
        }
    }
}
