ghost use Rattle.std.specs.Prelude.{◌≡◌, length};
ghost use Rattle.common.specs.Refusals.{numbered};
ghost use Rattle.wire.specs.Codec.{measured};

use common::Refusal;
use std::cmp::Ordering;

// Whether there are as many bytes as wanted, neither fewer nor more.
pub fn measure(bytes: &[u8], wanted: usize) -> Result<(), Refusal>
    ensures { numbered result ≡ measured wanted bytes.now }
{
    match bytes.len().cmp(&wanted) {
        Ordering::Less => Err(Refusal::Short),
        Ordering::Equal => Ok(()),
        Ordering::Greater => Err(Refusal::Long),
    }
}
