// What a replica states, as it was read: numbers in range or not, and the entry's bytes still in the frame.
// The replica's `Claim` has the same cases with their values read; one enum for both would take three parameters.
#[derive(Clone, Copy)]
pub enum Statement<'a> {
    // The sender's own slot holds the entry.
    Send { slot: u8, item: &'a [u8] },
    Echo { queue: u8, slot: u8, item: &'a [u8] },
    Ready { queue: u8, slot: u8, item: &'a [u8] },
    Have { queue: u8, slot: u8, item: &'a [u8] },
    Value { epoch: u16, round: u8, bit: u8 },
    Seen { epoch: u16, round: u8, bit: u8 },
    // The set is 1 for {0}, 2 for {1} and 3 for both.
    Confirm { epoch: u16, round: u8, set: u8 },
    Finish { epoch: u16, bit: u8 },
}
