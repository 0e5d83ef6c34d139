ghost use Rattle.std.specs.Prelude.{◌≡◌};
ghost use Rattle.std.specs.Option.{option_map};
ghost use Rattle.common.specs.Refusals.{answered};
ghost use Rattle.wire.specs.Frames.{next_of, Walks};

use crate::letter::Letter;
use common::Refusal;
use entry::Entry;

// The part of a frame, from a place on, that is its next statement, or none at the frame's end.
// Its law is answered at each exit: tried with `using`, which does not find it.
pub fn next<K: Entry>(frame: &[u8], place: usize) -> Result<Option<&[u8]>, Refusal>
    ensures value { answered (option_map (λ x. x.now)) result ≡ next_of K.WIDTH frame.now place }
    ensures walks { Walks K.WIDTH frame.now }
{
    let rest = frame.get(place..).ok_or(Refusal::Place)?;
    let Some(&byte) = rest.first() else {
        return Ok(None);
    };
    let n = Letter::try_from(byte)?.length::<K>();
    rest.get(..n).map(Some).ok_or(Refusal::Short)
}
