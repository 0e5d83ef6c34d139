ghost use Rattle.std.specs.Prelude.{◌≡◌};
ghost use Rattle.std.specs.Option.{option_map};
ghost use Rattle.wire.specs.Statements.{message_of, item_in};

use entry::Entry;
use wire::Statement;

// A sound statement, the place where it stands, and its entry, if it has one.
#[derive(Drop)]
pub struct Row<'a, K: Entry> {
    pub place: usize,
    pub statement: Statement<'a>,
    pub entry: Option<K>,
    // The entry is the one that the statement's bytes are.
    pub ghost entered: { option_map K.bytes entry ≡ item_in (message_of statement) },
}
