ghost use Rattle.std.specs.Prelude.{◌≡◌, ℕ, ◌<◌, ◌≤◌, ◌↔◌, Bool, true, false, List, ◌++◌, length, drop, Some, MatchOption, slice_index};
ghost use Rattle.std.specs.List.{slice_get};
ghost use Rattle.entry.specs.Columns.{breadth_of};

// A kind of entry.
pub trait Entry: Copy + Eq {
    // How many bytes an entry has.
    const WIDTH: usize;

    // the same number, for the promises
    ghost WIDTH: { ℕ };

    // the byte strings that are entries
    ghost valid: { List ℕ → Bool };

    // an entry's bytes
    ghost bytes: { Self → List ℕ };

    // the names of its columns, with semicolons between them
    ghost heading: { List ℕ };

    // the numbers in an entry's columns, from its bytes
    ghost columns: { List ℕ → List ℕ };

    // The entry that these bytes are, if they are one.
    fn read(s: &[u8]) -> Option<Self>
        ensures { MatchOption result (valid s.now ≡ false) (λ x. bytes x ≡ s.now) };

    // Writes the entry's bytes at the front of `out`.
    fn write(&self, out: &mut [u8])
        requires { WIDTH ≤ length out.old }
        ensures { out.new ≡ bytes self.now ++ drop WIDTH out.old };

    // The names of the columns.
    fn names() -> &'static [u8]
        ensures { result.now ≡ heading };

    // The number in the column `i`, if there is one.
    fn column(&self, i: usize) -> Option<u32>
        ensures { result ≡ slice_get (columns (bytes self.now)) i };

    ghost least: { 1 ≤ WIDTH };

    ghost most: { WIDTH ≤ 32 };

    ghost wide: { (s : List ℕ) → valid s ≡ true → length s ≡ WIDTH };

    ghost octets: { (s : List ℕ) → valid s ≡ true → (i : ℕ) → slice_index s i < 256 };

    ghost sound: { (x : Self) → valid (bytes x) ≡ true };

    ghost unique: { (x y : Self) → bytes x ≡ bytes y → x ≡ y };

    // the same exactly when the bytes are
    ghost same: { (x y : Self) → (Self.eq x y ≡ true) ↔ (bytes x ≡ bytes y) };

    ghost brief: { length heading < 256 };

    // as many columns as names
    ghost matched: { (s : List ℕ) → valid s ≡ true → length (columns s) ≡ breadth_of heading };
}

// Writes an entry and reads it again, which gives that entry.
pub fn reread<K: Entry>(x: &K) -> Option<K>
    ensures { result ≡ Some x.now }
{
    // As wide as the widest kind: there is no heap here.
    let mut bytes = [0; 32];
    x.write(&mut bytes);
    K::read(&bytes[..K::WIDTH])
}
