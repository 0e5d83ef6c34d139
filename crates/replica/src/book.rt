ghost use Rattle.std.specs.Prelude.{◌≡◌, map};
ghost use Rattle.std.specs.Option.{option_map};
ghost use Rattle.theory.specs.Book.{stands_in_book};
ghost use Rattle.replica.specs.Store.{paged};
ghost use Rattle.replica.specs.View.{leading, same_bytes};

use crate::lent::Page;
use entry::Entry;

// Whether the entry stands on a page, before the first empty place. As `map_while` and `any` it was tried: the check does
// not find what they answer.
pub fn in_book<K: Entry>(pages: &[Option<Page<K>>], x: &K) -> bool
    ensures { result ≡ stands_in_book same_bytes (leading (map (option_map (paged K.bytes)) pages.now)) (K.bytes x.now) }
{
    for cell in pages {
        let Some(page) = cell else {
            return false;
        };
        if page.item == *x {
            return true;
        }
    }
    false
}
