use votes::Bits;

// A statement with its entry read and its bit or set known: what a cell can hold. Queue and slot
// stand apart, as in the format: a struct of the two would be taken apart again at each cell and each byte.
#[derive(Clone, Copy)]
pub enum Claim<K> {
    Send { slot: u8, item: K },
    Echo { queue: u8, slot: u8, item: K },
    Ready { queue: u8, slot: u8, item: K },
    Have { queue: u8, slot: u8, item: K },
    Value { epoch: u16, round: u8, bit: bool },
    Seen { epoch: u16, round: u8, bit: bool },
    Confirm { epoch: u16, round: u8, set: Bits },
    Finish { epoch: u16, bit: bool },
}
