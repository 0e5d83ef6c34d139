ghost use Rattle.std.specs.Prelude.{◌≡◌, ℕ, Bool};

// A common coin.
pub trait Coin {
    // the bit of an epoch and a round
    ghost meaning: { Self → ℕ → ℕ → Bool };

    // Tosses the coin, which stays what it was. An epoch and a round are what it is asked by; a struct of the two is no plainer.
    fn toss(&mut self, epoch: u16, round: u8) -> bool
        ensures value { result ≡ meaning self.old epoch round }
        ensures same { meaning self.new ≡ meaning self.old };
}
