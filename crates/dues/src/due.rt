// An entry that is due to be stated for a queue's slot.
#[derive(Clone, Copy)]
pub struct Due<K> {
    pub queue: u8,
    pub slot: u8,
    pub item: K,
}
