// Whether one fits where something may be held already.
ghost use Rattle.std.specs.Prelude.{◌≡◌};
ghost use Rattle.common.specs.Refusals.{numbered};
ghost use Rattle.replica.specs.Holding.{settled_by};

use common::Refusal;

// The same must not be held, nor another.
pub fn settle<T: PartialEq + Copy>(held: Option<T>, item: T) -> Result<(), Refusal>
    ensures { numbered result ≡ settled_by T.eq held item }
{
    match held {
        None => Ok(()),
        Some(old) if old == item => Err(Refusal::Held),
        Some(_) => Err(Refusal::Other),
    }
}
