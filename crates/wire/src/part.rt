use common::Refusal;

// A statement's bytes, and the place of the frame where they stand.
#[derive(Clone, Copy)]
pub struct Part<'a> {
    pub place: usize,
    pub bytes: &'a [u8],
}

// Why no more statements follow, and the place of the frame where that is.
#[derive(Clone, Copy)]
pub struct Fault {
    pub refusal: Refusal,
    pub place: usize,
}
