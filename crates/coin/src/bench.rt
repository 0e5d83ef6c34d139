ghost use Rattle.coin.specs.Coins.{bench_of};

use crate::kind::Coin;

// Answers whether epoch plus round is odd.
#[derive(Clone, Copy)]
pub struct Bench;

impl Coin for Bench {
    ghost meaning = { λ _. bench_of };

    fn toss(&mut self, epoch: u16, round: u8) -> bool {
        (u32::from(epoch) + u32::from(round)) % 2 == 1
    }
}
