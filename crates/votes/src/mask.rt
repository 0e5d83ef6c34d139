// A set of senders: sender j is bit j, lowest first.
#[derive(Clone, Copy, PartialEq, Eq, Debug)]
pub struct Mask(pub u16);
