ghost use Rattle.std.specs.Prelude.{◌≡◌};
ghost use Rattle.wire.specs.Letters.{byte_of, letter_of, known, length_of};

use crate::letter::Letter;
use common::Refusal;
use entry::Entry;

// The letter that a byte is, if it is one, matched as a character by a rule of the project.
impl TryFrom<u8> for Letter {
    type Error = Refusal;

    ghost try_from_gives = { λ byte r. r ≡ known (letter_of byte) };

    fn try_from(byte: u8) -> Result<Letter, Refusal> {
        match char::from(byte) {
            'S' => Ok(Letter::Send),
            'E' => Ok(Letter::Echo),
            'R' => Ok(Letter::Ready),
            'H' => Ok(Letter::Have),
            'V' => Ok(Letter::Value),
            'A' => Ok(Letter::Seen),
            'C' => Ok(Letter::Confirm),
            'F' => Ok(Letter::Finish),
            _ => Err(Refusal::Letter),
        }
    }
}

// The byte that it is.
impl From<Letter> for u8 {
    ghost from_gives = { λ letter byte. byte ≡ byte_of letter };

    fn from(letter: Letter) -> u8 {
        letter as u8
    }
}

impl Letter {
    // How many bytes a statement that begins with it has.
    pub fn length<K: Entry>(self) -> usize
        ensures { result ≡ length_of K.WIDTH self }
    {
        match self {
            Letter::Send => 2 + K::WIDTH,
            Letter::Echo | Letter::Ready | Letter::Have => 3 + K::WIDTH,
            Letter::Value | Letter::Seen | Letter::Confirm => 4,
            Letter::Finish => 3,
        }
    }
}
