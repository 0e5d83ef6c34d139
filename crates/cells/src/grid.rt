ghost use Rattle.std.specs.Prelude.{◌≡◌, ◌+◌, ◌*◌, ◌/◌, ◌%◌, ◌<◌, ◌≤◌};
ghost use Rattle.cells.specs.Rows.{place_of, row_of, slot_of};

// How many replicas a set has, each with a queue of its own, and how many slots a queue has.
#[derive(Clone, Copy)]
pub struct Grid {
    pub n: u8,
    pub w: u8,
}

// Each method asks for no more than its own place needs: a queue and a sender below n, a slot below w.
impl Grid {
    // How many slots there are in all queues.
    pub fn slots(self) -> usize
        ensures { result ≡ self.n * self.w }
    {
        usize::from(self.n) * usize::from(self.w)
    }

    // How many cells there are in the rows of all slots.
    pub fn row_cells(self) -> usize
        ensures { result ≡ self.n * self.w * self.n }
    {
        self.slots() * usize::from(self.n)
    }

    // The place of a sender's cell in the row of a queue's slot.
    pub fn place(self, queue: u8, slot: u8, sender: u8) -> usize
        requires low { queue < self.n }
        requires inside { slot < self.w }
        requires from { sender < self.n }
        ensures value { result ≡ place_of self.n self.w queue slot sender }
        ensures within { result < self.n * self.w * self.n }
    {
        self.row(queue, slot) + usize::from(sender)
    }

    // Where the row of a queue's slot begins.
    pub fn row(self, queue: u8, slot: u8) -> usize
        requires low { queue < self.n }
        requires inside { slot < self.w }
        ensures value { result ≡ row_of self.n self.w queue slot }
        ensures within { result + self.n ≤ self.n * self.w * self.n }
    {
        self.slot_place(queue, slot) * usize::from(self.n)
    }

    // The place of a queue's slot, where each has one cell.
    pub fn slot_place(self, queue: u8, slot: u8) -> usize
        requires low { queue < self.n }
        requires inside { slot < self.w }
        ensures value { result ≡ slot_of self.w queue slot }
        ensures within { result < self.n * self.w }
    {
        usize::from(queue) * usize::from(self.w) + usize::from(slot)
    }

    // The queue and the slot that have a place among the slots of all queues. The casts make both narrower: that
    // they fit is shown by the contract, so there is no error to answer.
    pub fn slot_at(self, place: usize) -> (u8, u8)
        requires { place < self.n * self.w }
        ensures value { result ≡ (place / self.w, place % self.w) }
        ensures low { result.0 < self.n }
        ensures inside { result.1 < self.w }
    {
        let w = usize::from(self.w);
        ((place / w) as u8, (place % w) as u8)
    }
}
