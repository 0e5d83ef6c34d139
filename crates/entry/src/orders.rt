ghost use Rattle.std.specs.Prelude.{◌≡◌, ◌<◌, false, Some, None, codes, MatchOption};
ghost use Rattle.entry.specs.Orders.{fields_of, order_bytes, is_gift, is_close, is_order, order_columns};
ghost use Rattle.std.proofs.Common.{arith, rules};
ghost use Rattle.std.proofs.lemmas.Bool.Decides.{nat_tests};
ghost use Rattle.entry.specs.Bytes.{octet_at};
ghost use Rattle.entry.specs.OrderUnique.{order_unique};

use crate::gift::Gift;
use crate::house::House;
use crate::kind::Entry;
use crate::order::ShareOrder;

impl ShareOrder {
    // A share given, if the houses are two and there is something to give.
    pub fn give(from: House, to: u16, amount: u32) -> Option<ShareOrder>
        ensures { MatchOption result (is_gift from.number to amount ≡ false) (λ x. fields_of x ≡ (1, from.number, to, amount)) }
    {
        let to = House::try_from(to).ok()?;
        if from == to || amount < 1 {
            return None;
        }
        Some(ShareOrder::Give(Gift { from, to, amount }))
    }

    // A house closed, if nothing else is said.
    pub fn close(house: House, to: u16, amount: u32) -> Option<ShareOrder>
        ensures { MatchOption result (is_close to amount ≡ false) (λ x. fields_of x ≡ (2, house.number, to, amount)) }
    {
        if to != 0 || amount != 0 {
            return None;
        }
        Some(ShareOrder::Close(house))
    }

    // The number of its kind, from, to and amount, with zeros where it has none. The 1 and the 2 are the
    // format's first byte, written here and read in `read` alone: an enum of kinds with its two conversions is no
    // plainer for two bytes.
    pub fn fields(&self) -> (u8, u16, u16, u32)
        ensures { result ≡ fields_of self.now }
    {
        match self {
            ShareOrder::Give(gift) => (1, gift.from.number, gift.to.number, gift.amount),
            ShareOrder::Close(house) => (2, house.number, 0, 0),
        }
    }
}

impl Entry for ShareOrder {
    const WIDTH: usize = 9;

    ghost WIDTH = { 9 };

    ghost valid = { is_order };

    ghost bytes = { order_bytes };

    ghost heading = { codes "kind;from;to;amount" };

    ghost columns = { order_columns };

    ghost least = { Prim.search rules };

    ghost most = { Prim.search rules };

    ghost wide = { Prim.search rules };

    ghost octets = { λ s h. octet_at s (Prim.grind (arith, nat_tests)) };

    ghost sound = { Prim.search rules };

    ghost unique = { order_unique };

    ghost same = { Prim.search rules };

    ghost brief = { Prim.search rules };

    ghost matched = { Prim.search rules };

    fn read(s: &[u8]) -> Option<Self> {
        let &[kind, f1, f0, t1, t0, a3, a2, a1, a0] = s else {
            return None;
        };
        let from = House::try_from(u16::from_be_bytes([f1, f0])).ok()?;
        let to = u16::from_be_bytes([t1, t0]);
        let amount = u32::from_be_bytes([a3, a2, a1, a0]);
        match kind {
            1 => ShareOrder::give(from, to, amount),
            2 => ShareOrder::close(from, to, amount),
            _ => None,
        }
    }

    fn write(&self, out: &mut [u8]) {
        let (kind, from, to, amount) = self.fields();
        let [f1, f0] = from.to_be_bytes();
        let [t1, t0] = to.to_be_bytes();
        let [a3, a2, a1, a0] = amount.to_be_bytes();
        out[..9].copy_from_slice(&[kind, f1, f0, t1, t0, a3, a2, a1, a0]);
    }

    fn names() -> &'static [u8] {
        b"kind;from;to;amount"
    }

    fn column(&self, i: usize) -> Option<u32> {
        let (kind, from, to, amount) = self.fields();
        let columns = [u32::from(kind), u32::from(from), u32::from(to), amount];
        columns.get(i).copied()
    }
}
