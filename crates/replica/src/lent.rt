use cells::Witness;

// A page of the book. Queue and slot stand apart, as in the format: a struct of the two would be taken apart again at
// each cell and each byte.
#[derive(Clone, Copy, PartialEq, Eq)]
pub struct Page<K> {
    pub epoch: u16,
    pub queue: u8,
    pub slot: u8,
    pub item: K,
}

// The memory that is lent at each call. It has no `Model`: calls lend single tables on by field, and all promises
// speak of its bytes by `store`.
#[derive(Drop)]
pub struct Tables<'a, K> {
    // By sender and slot.
    pub sends: Witness<'a, K>,
    // By queue, slot and sender, in three tables, since each is lent by the caller.
    pub echoes: Witness<'a, K>,
    pub readies: Witness<'a, K>,
    pub haves: Witness<'a, K>,
    // The book, from its first page on.
    pub pages: Witness<'a, Page<K>>,
}
