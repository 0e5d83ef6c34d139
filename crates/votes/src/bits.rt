// The set of a confirm: one bit, or both.
#[derive(Clone, Copy, PartialEq, Eq, Debug)]
pub enum Bits {
    Only(bool),
    Both,
}
