// What a text is put to, one part behind the other: the text is said once, and goes to each kind of sink.
ghost use Rattle.std.specs.Prelude.{◌≡◌, ℕ, ◌+◌, ◌-◌, ◌^◌, ◌<◌, ◌≤◌, List, [], ◌++◌, length, min, decimal, refl};
ghost use Rattle.std.proofs.Common.{◌∙◌};
ghost use Rattle.printing.specs.Texts.{Laid};
ghost use Rattle.printing.specs.Laying.{none_counted, both_counted, none_laid, both_laid};

use crate::text::digits;
use itoa::write_digits;

pub trait Sink {
    // relates a sink, the bytes that are put to it, and the sink after it
    ghost put_gives: { Self → List ℕ → Self → Type 0 };

    // Puts the bytes behind what was put before.
    fn put(&mut self, bytes: &[u8])
        ensures { put_gives self.old bytes.now self.new };

    // Puts a number in decimal.
    fn put_decimal(&mut self, n: u64)
        ensures { put_gives self.old (decimal n) self.new };

    // putting nothing leaves it as it is
    ghost nothing: { (s : Self) → put_gives s [] s };

    // two parts are one
    ghost joined: { (s m t : Self) (a b : List ℕ) → put_gives s a m → put_gives m b t → put_gives s (a ++ b) t };
}

// Counts the bytes, and keeps none. The count stops at the greatest one.
#[derive(Drop)]
pub struct Length {
    pub bytes: usize,
}

impl Sink for Length {
    ghost put_gives = { λ s bs t. s.bytes < 2 ^ 64 → t.bytes ≡ min (s.bytes + length bs) (2 ^ 64 - 1) };

    ghost nothing = { λ s. none_counted s.bytes };

    ghost joined = { λ s m t. both_counted s.bytes m.bytes t.bytes };

    fn put(&mut self, bytes: &[u8]) {
        self.bytes = self.bytes.saturating_add(bytes.len());
    }

    fn put_decimal(&mut self, n: u64) {
        self.bytes = self.bytes.saturating_add(digits(n));
    }
}

// Writes the bytes to a place in a buffer, where they fit.
#[derive(Drop)]
pub struct Cursor<'a> {
    pub out: &'a mut [u8],
    pub at: usize,
}

impl Sink for Cursor<'_> {
    ghost put_gives = { λ s bs t. (t.out.ghost_name ≡ s.out.ghost_name) × (s.at + length bs ≤ length s.out.now → Laid s.out.now s.at bs t.at t.out.now) };

    ghost nothing = { λ s. (refl, none_laid s.out.now s.at) };

    ghost joined = { λ s m t a b x y. (y.0 ∙ x.0, both_laid x.1 y.1) };

    fn put(&mut self, bytes: &[u8]) {
        let end = self.at.saturating_add(bytes.len());
        if end <= self.out.len() {
            self.out[self.at..end].copy_from_slice(bytes);
            self.at = end;
        }
    }

    fn put_decimal(&mut self, n: u64) {
        let end = self.at.saturating_add(digits(n));
        if end <= self.out.len() {
            write_digits(n, self.out, end);
            self.at = end;
        }
    }
}
