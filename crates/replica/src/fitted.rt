ghost use Rattle.std.specs.Prelude.{◌≡◌, true};
ghost use Rattle.replica.specs.Store.{store, fits};

use crate::lent::Tables;
use crate::state::Replica;
use entry::Entry;

// A replica and tables that are long enough for its set. It has no `Model`, as `Tables` has none.
#[derive(Drop)]
pub struct Fitted<'a, 't, K: Entry> {
    pub replica: &'a Replica,
    pub tables: &'a Tables<'t, K>,
    pub ghost long: { fits replica.now.set.n replica.now.set.w (store K.bytes tables.now) ≡ true },
}
