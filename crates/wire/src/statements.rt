ghost use Rattle.std.specs.Prelude.{◌≡◌};
ghost use Rattle.std.specs.Option.{option_map};
ghost use Rattle.wire.specs.Statements.{message_of, letter_in, item_in};

use crate::letter::Letter;
use crate::statement::Statement;

impl<'a> Statement<'a> {
    // The letter that it begins with.
    pub fn letter(self) -> Letter
        ensures { result ≡ letter_in (message_of self.entry) }
    {
        match self {
            Statement::Send { .. } => Letter::Send,
            Statement::Echo { .. } => Letter::Echo,
            Statement::Ready { .. } => Letter::Ready,
            Statement::Have { .. } => Letter::Have,
            Statement::Value { .. } => Letter::Value,
            Statement::Seen { .. } => Letter::Seen,
            Statement::Confirm { .. } => Letter::Confirm,
            Statement::Finish { .. } => Letter::Finish,
        }
    }

    // The bytes of its entry, if it has one.
    pub fn item(self) -> Option<&'a [u8]>
        ensures { option_map (λ x. x.now) result ≡ item_in (message_of self.entry) }
    {
        match self {
            Statement::Send { item, .. }
            | Statement::Echo { item, .. }
            | Statement::Ready { item, .. }
            | Statement::Have { item, .. } => Some(item),
            _ => None,
        }
    }
}
