ghost use Rattle.std.specs.Prelude.{◌+◌, ◌^◌, ◌<◌, length};

// A record of a day: the box that sent it, the place where its bytes begin, and its bytes.
#[derive(Clone, Copy)]
pub struct Record<'a> {
    pub sender: u8,
    pub start: usize,
    pub bytes: &'a [u8],
    // So that each of its places is a number.
    ghost fits: { start + length bytes.now < 2 ^ 64 },
}

// The place of a record that the day ends inside of.
#[derive(Clone, Copy)]
pub struct Torn {
    pub place: usize,
}
