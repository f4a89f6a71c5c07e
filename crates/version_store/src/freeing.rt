//! How the page of a version that is given up is gone through.

ghost use Rattle.std.specs.Prelude.{◌≡◌, ◌<◌, ◌≤◌, ◌+◌, ℕ, List, Some, None, length};
ghost use Rattle.pin_rule.specs.declared.view.View.{View};
ghost use Rattle.pin_rule.specs.declared.view.Role.{Role};
ghost use Rattle.pin_rule.specs.declared.view.GivingUp.{GivingUp};
ghost use Rattle.pin_rule.specs.Hands.{view_of, sizes_of, table_of};
ghost use Rattle.pin_rule.specs.Layout.{place_word};
ghost use Rattle.version_store.specs.Freeing.{IsGiving, FreesPlace, FreesPage, FreesFirst};

use crate::carried_rows::CarriedRows;
use crate::leaving::Leaving;
use pin_rule::content::Content;
use pin_rule::hand::Hand;

/// Loads the place reached of the page, which starts there, and frees the row
/// that stands there unless it was carried into the version that follows.
fn free_place<C: Content>(
    hand: &mut Hand<C>,
    leaving: Leaving,
    carried: &CarriedRows,
    start: usize,
    place: u32,
)
    requires start { start ≡ place_word (sizes_of hand.old) leaving.page 0 }
    requires giving { (role : Role) × (given : GivingUp) × IsGiving leaving carried.now role given place (view_of hand.old) }
    requires place { place < leaving.sizes.places }
    ensures table { table_of hand.new ≡ table_of hand.old }
    ensures freed { (role : Role) (given : GivingUp) → IsGiving leaving carried.now role given place (view_of hand.old)
        → (met : ℕ) × FreesPlace leaving carried.now role given place met (view_of hand.old) (view_of hand.new) }
{
    let met = hand.load_place_at(start, leaving.page, place);
    if met == 0 {
        return;
    }
    let row = (met - 1) as u32;
    if carried.has(leaving.next, row) {
        return;
    }
    hand.free_row(row);
}

/// Goes through so many places, from this one on. The places before it were
/// gone through.
#[inline(always)]
fn free_places<C: Content>(
    hand: &mut Hand<C>,
    leaving: Leaving,
    carried: &CarriedRows,
    start: usize,
    first: u32,
    count: u32,
)
    requires start { start ≡ place_word (sizes_of hand.old) leaving.page 0 }
    requires giving { (v : View) × (role : Role) × (given : GivingUp) × IsGiving leaving carried.now role given 0 v
        × FreesFirst leaving carried.now role given first v (view_of hand.old) }
    requires inside { first + count ≤ leaving.sizes.places }
    ensures table { table_of hand.new ≡ table_of hand.old }
    ensures freed { (v : View) (role : Role) (given : GivingUp) → IsGiving leaving carried.now role given 0 v
        → FreesFirst leaving carried.now role given first v (view_of hand.old)
        → FreesFirst leaving carried.now role given (first + count) v (view_of hand.new) }
{
    for offset in 0..count {
        free_place(hand, leaving, carried, start, first + offset);
    }
}

/// Goes through the page, from its first place on. Afterwards no version is
/// being given up.
pub(crate) fn free_page<C: Content>(hand: &mut Hand<C>, leaving: Leaving, carried: &CarriedRows)
    requires { (role : Role) × (given : GivingUp) × IsGiving leaving carried.now role given 0 (view_of hand.old) }
    ensures table { table_of hand.new ≡ table_of hand.old }
    ensures freed { (role : Role) (given : GivingUp) → IsGiving leaving carried.now role given 0 (view_of hand.old)
        → (places : List ℕ) × (length places ≡ leaving.sizes.places)
        × FreesPage leaving carried.now role given places (view_of hand.old) (view_of hand.new) }
{
    let start = hand.page_start(leaving.page);
    let groups = leaving.sizes.places / 8;
    for group in 0..groups {
        free_places(hand, leaving, carried, start, group * 8, 8);
    }
    let rest = leaving.sizes.places % 8;
    free_places(hand, leaving, carried, start, groups * 8, rest);
}
