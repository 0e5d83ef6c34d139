ghost use Rattle.std.specs.Prelude.{◌≡◌, IfOk, OnOk};
ghost use Rattle.common.specs.Refusals.{answered};
ghost use Rattle.replica.specs.Store.{store, Wiped};
ghost use Rattle.replica.specs.Making.{plain, make_of, Begins};

use crate::lent::Tables;
use crate::set::Set;
use crate::state::Replica;
use common::Refusal;
use entry::Entry;

impl Replica {
    // Makes the replica `me` of `n` with `w` slots each, and empties the cells that it needs.
    pub fn make<K: Entry>(
        n: u8,
        me: u8,
        w: u8,
        tables: &mut Tables<'_, K>,
    ) -> Result<Replica, Refusal>
        ensures value { (answered plain result, store K.bytes tables.new) ≡ make_of n me w (store K.bytes tables.old) }
        ensures wiped { OnOk result (Wiped n w (store K.bytes tables.old) (store K.bytes tables.new)) }
        ensures begins { IfOk result (λ m. Begins me m (store K.bytes tables.new)) }
    {
        let set = Set::new(n, me, w)?;
        let grid = set.grid();
        if !tables.fit(grid) {
            return Err(Refusal::Table);
        }
        tables.clear(grid);
        Ok(Replica::fresh(set))
    }
}
