ghost use Rattle.std.specs.Prelude.{◌≡◌, ◌<◌, false, Some, None, codes, MatchOption, MatchResult};
ghost use Rattle.entry.specs.Numbers.{within};
ghost use Rattle.entry.specs.Readings.{quantity_of, reading_bytes, is_reading, reading_columns};
ghost use Rattle.std.proofs.Common.{arith, rules};
ghost use Rattle.std.proofs.lemmas.Bool.Decides.{nat_tests};
ghost use Rattle.entry.specs.Bytes.{octet_at};
ghost use Rattle.entry.specs.ReadingUnique.{reading_unique};

use crate::house::House;
use crate::kind::Entry;
use crate::quantity::Quantity;
use crate::reading::Reading;

impl Entry for Reading {
    const WIDTH: usize = 8;

    ghost WIDTH = { 8 };

    ghost valid = { is_reading };

    ghost bytes = { reading_bytes };

    ghost heading = { codes "house;week;quantity;amount" };

    ghost columns = { reading_columns };

    ghost least = { Prim.search rules };

    ghost most = { Prim.search rules };

    ghost wide = { Prim.search rules };

    ghost octets = { λ s h. octet_at s (Prim.grind (arith, nat_tests)) };

    ghost sound = { Prim.search rules };

    ghost unique = { reading_unique };

    ghost same = { Prim.search rules };

    ghost brief = { Prim.search rules };

    ghost matched = { Prim.search rules };

    fn read(s: &[u8]) -> Option<Self> {
        let &[h1, h0, week, q, a3, a2, a1, a0] = s else {
            return None;
        };
        let house = House::try_from(u16::from_be_bytes([h1, h0])).ok()?;
        if !(1..=53).contains(&week) {
            return None;
        }
        let quantity = Quantity::try_from(q).ok()?;
        let amount = u32::from_be_bytes([a3, a2, a1, a0]);
        Some(Reading {
            house,
            week,
            quantity,
            amount,
        })
    }

    fn write(&self, out: &mut [u8]) {
        let [h1, h0] = self.house.number.to_be_bytes();
        let [a3, a2, a1, a0] = self.amount.to_be_bytes();
        let quantity = u8::from(self.quantity);
        out[..8].copy_from_slice(&[h1, h0, self.week, quantity, a3, a2, a1, a0]);
    }

    fn names() -> &'static [u8] {
        b"house;week;quantity;amount"
    }

    fn column(&self, i: usize) -> Option<u32> {
        let house = u32::from(self.house.number);
        let quantity = u32::from(u8::from(self.quantity));
        let columns = [house, u32::from(self.week), quantity, self.amount];
        columns.get(i).copied()
    }
}
