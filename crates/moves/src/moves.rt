use dues::{Closing, Due};
use replica::Bits;

// What a turn does.
#[derive(Clone, Copy)]
pub enum Move<K> {
    Echo(Due<K>),
    Ready(Due<K>),
    Keep(Due<K>),
    Follow(bool),
    Decide(bool),
    Write { slot: u8, item: K },
    Second { round: u8, bit: bool },
    See { round: u8, bit: bool },
    Confirm { round: u8, set: Bits },
    Close { round: u8, closing: Closing },
}
