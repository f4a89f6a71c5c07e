//! Where a row that is kept stands in the page in the making.

ghost use Rattle.std.specs.Prelude.{◌≡◌, ◌<◌, length};
ghost use Rattle.version_store.specs.Choices.{count_taken, PutsAtFirst};

use pin_rule::sizes::Sizes;
use slot_store::paths::{first_place, next_place};

/// Puts the word at the first empty place of the key's path. The keys of a page
/// differ, so none is compared.
pub(crate) fn put_at_first(sizes: Sizes, places: &mut [u64], key: &[u64], word: u64)
    requires room { length places.old ≡ sizes.places }
    requires few { count_taken places.old < sizes.places }
    ensures { PutsAtFirst sizes key.now word places.old places.new }
{
    let mut place = first_place(sizes, key);
    for _step in 0..sizes.places {
        if places[place as usize] == 0 {
            places[place as usize] = word;
            return;
        }
        place = next_place(sizes, place);
    }
}
