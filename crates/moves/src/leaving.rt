// Leaving an epoch, and writing a page.
ghost use Rattle.std.specs.Prelude.{◌≡◌, ◌<◌, Some};
ghost use Rattle.common.specs.Limits.{most_replicas, most_slots, epochs};
ghost use Rattle.replica.specs.Store.{store, paged};
ghost use Rattle.turns.specs.Stepping.{left_of, filed_of};

use entry::Entry;
use replica::{Page, Replica, Stage, Tables};
use votes::Votes;

// Leaves the epoch: its votes go, but the own finish is kept.
pub fn leave(replica: &mut Replica)
    requires week { replica.old.epoch < epochs }
    ensures { replica.new ≡ left_of replica.old }
{
    replica.keep_finish();
    replica.votes = Votes::none();
    replica.stage = Stage::Unopened;
    replica.epoch += 1;
}

// Writes a page behind the others, and moves the head of its queue behind its slot.
pub fn file<K: Entry>(replica: &mut Replica, tables: &mut Tables<'_, K>, page: Page<K>)
    requires queue { page.queue < most_replicas }
    requires slot { page.slot < most_slots }
    ensures { (replica.new, store K.bytes tables.new) ≡ filed_of (Some (paged K.bytes page)) replica.old (store K.bytes tables.old) }
{
    let place = usize::from(replica.pages);
    replica.heads[usize::from(page.queue)] = page.slot + 1;
    replica.pages = replica.pages.saturating_add(1);
    if place < tables.pages.len() {
        tables.pages.hold(place, page);
    }
}
