ghost use Rattle.std.specs.Prelude.{◌≡◌, ◌<◌, false, true, not};
ghost use Rattle.std.specs.Option.{option_map};
ghost use Rattle.votes.specs.Sets.{bits_of, bit_in};
ghost use Rattle.votes.specs.Votes.{unmarked, mask_of, marks, bit_of, set_for, mark, with_set, Marked};

use crate::bits::Bits;
use crate::marks::Marks;
use crate::mask::Mask;
use crate::sets::holds;

// Marks are two masks and Copy, so marking gives back the new pair, as an operation on numbers does.
impl Marks {
    // Nobody has marked anything.
    pub fn none() -> Marks
        ensures { result ≡ unmarked }
    {
        Marks {
            zero: Mask(0),
            one: Mask(0),
        }
    }

    // The senders that have marked the bit.
    pub(crate) fn of(self, bit: bool) -> Mask
        ensures { result.0 ≡ mask_of self bit }
    {
        if bit { self.one } else { self.zero }
    }

    // Whether a sender has marked the bit.
    pub fn has(self, bit: bool, sender: u8) -> bool
        ensures { result ≡ marks self bit sender }
    {
        self.of(bit).contains(sender)
    }

    // The one bit of a sender: 0 if it has marked both.
    pub fn bit(self, sender: u8) -> Option<bool>
        ensures { result ≡ bit_of self sender }
    {
        if self.zero.contains(sender) {
            return Some(false);
        }
        self.one.contains(sender).then_some(true)
    }

    // The set of a sender, if it has marked a bit.
    pub fn set(self, sender: u8) -> Option<Bits>
        ensures { option_map bits_of result ≡ set_for self sender }
    {
        Bits::of(self.zero.contains(sender), self.one.contains(sender))
    }

    // A sender marks a bit as well. It is below 16, since a mask holds no other.
    pub fn mark(self, bit: bool, sender: u8) -> Marks
        requires { sender < 16 }
        ensures value { result ≡ mark self bit sender }
        ensures marked { Marked self (not bit) bit sender result }
    {
        self.mark_set(Some(Bits::Only(bit)), sender)
    }

    // A sender marks the bits of a set as well, if there is one. It is below 16, since a mask holds no other.
    pub fn mark_set(self, set: Option<Bits>, sender: u8) -> Marks
        requires { sender < 16 }
        ensures value { result ≡ with_set self (bit_in set false) (bit_in set true) sender }
        ensures marked { Marked self (bit_in set false) (bit_in set true) sender result }
    {
        let own = Mask(1 << sender);
        Marks {
            zero: self.zero | own.kept(holds(set, false)),
            one: self.one | own.kept(holds(set, true)),
        }
    }
}
