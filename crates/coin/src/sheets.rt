ghost use Rattle.std.specs.Prelude.{◌≡◌};
ghost use Rattle.common.specs.Refusals.{answered};
ghost use Rattle.coin.specs.Coins.{sheet_of, deal_of};

use crate::kind::Coin;
use crate::sheet::{SHEET, Sheet};
use common::Refusal;

impl Sheet {
    // The sheet with these bytes; a named call of the product, and so no conversion.
    pub fn deal(bytes: &[u8]) -> Result<Sheet, Refusal>
        ensures { answered (λ s. s.dealt) result ≡ deal_of bytes.now }
    {
        let dealt = bytes.as_array::<SHEET>().ok_or(Refusal::Sheet)?;
        Ok(Sheet { dealt: *dealt })
    }
}

impl Coin for Sheet {
    ghost meaning = { sheet_of };

    fn toss(&mut self, epoch: u16, round: u8) -> bool {
        let at = 2 * usize::from(epoch) + usize::from(round) / 8;
        self.dealt
            .get(at)
            .is_some_and(|byte| (byte >> (round % 8)) % 2 == 1)
    }
}
