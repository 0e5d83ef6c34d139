ghost use Rattle.std.specs.Prelude.{◌+◌, ◌^◌, ◌<◌, length};

use std::marker::PhantomData;

// The parts of a frame that are still to be handed out.
#[derive(Drop)]
pub struct Parts<'a, K> {
    // What is left of the frame, from the place on.
    pub(crate) rest: &'a [u8],
    pub(crate) place: usize,
    pub(crate) kind: PhantomData<K>,
    // So that each place is a number.
    pub ghost fits: { place + length rest.now < 2 ^ 64 },
}
