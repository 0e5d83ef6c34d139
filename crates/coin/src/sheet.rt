use common::EPOCHS;

// Two bytes for each epoch; cast, because a constant calls no function.
pub const SHEET: usize = 2 * EPOCHS as usize;

// Answers from dealt bytes, in an array of fixed size: there is no heap here.
#[derive(Clone, Copy)]
pub struct Sheet {
    pub dealt: [u8; SHEET],
}
