use crate::mask::Mask;

// The senders that have marked bit 0, and those that have marked bit 1.
#[derive(Clone, Copy, PartialEq, Eq, Debug)]
pub struct Marks {
    pub zero: Mask,
    pub one: Mask,
}
