//! How the page of the next version is written.

ghost use Rattle.std.specs.Prelude.{◌≡◌, ◌≤◌, ◌+◌, ◌++◌, [], ℕ, suc, List, Some, length, slice_index};
ghost use Rattle.pin_rule.specs.declared.view.View.{View};
ghost use Rattle.pin_rule.specs.declared.view.Making.{Making};
ghost use Rattle.pin_rule.specs.Hands.{view_of, sizes_of, table_of};
ghost use Rattle.pin_rule.specs.Layout.{place_word};
ghost use Rattle.pin_rule.specs.NextVersion.{IsKeepable};
ghost use Rattle.version_store.specs.Roles.{role_of};
ghost use Rattle.version_store.specs.Stages.{IsEditorOf, WritesPage};

use crate::current::Current;
use pin_rule::content::Content;
use pin_rule::hand::Hand;

/// Writes some places of the page in the making, which starts there, in their
/// order, from this one on. Those before it were written.
#[inline(always)]
fn write_places<C: Content>(
    hand: &mut Hand<C>,
    current: Current,
    start: usize,
    first: u32,
    part: &[u64],
)
    requires start { start ≡ place_word (sizes_of hand.old) current.next 0 }
    requires written { (v : View) × (before : List ℕ) × IsEditorOf current v × (length before ≡ first) × WritesPage current v (view_of hand.old) before
        × ((m : Making) × ((role_of v).making ≡ Some m) × (length m.entry ≡ 32) × (m.page ≡ current.next) × (m.places ≡ [])
        × ((place row : ℕ) → slice_index part.now place ≡ suc row → IsKeepable C.fits v m row)) }
    requires inside { first + length part.now ≤ current.sizes.places }
    ensures table { table_of hand.new ≡ table_of hand.old }
    ensures wrote { (v : View) (before : List ℕ) → IsEditorOf current v → length before ≡ first → WritesPage current v (view_of hand.old) before
        → WritesPage current v (view_of hand.new) (before ++ part.now) }
{
    for offset in 0..part.len() {
        hand.write_place_at(start, current.next, first + offset as u32, part[offset]);
    }
}

/// Writes all places of the page in the making, in their order.
pub(crate) fn write_page<C: Content>(hand: &mut Hand<C>, current: Current, places: &[u64])
    requires editor { IsEditorOf current (view_of hand.old) }
    requires making { (m : Making) × ((role_of (view_of hand.old)).making ≡ Some m) × (length m.entry ≡ 32) × (m.page ≡ current.next) × (m.places ≡ [])
        × ((place row : ℕ) → slice_index places.now place ≡ suc row → IsKeepable C.fits (view_of hand.old) m row) }
    requires room { length places.now ≡ current.sizes.places }
    ensures table { table_of hand.new ≡ table_of hand.old }
    ensures wrote { WritesPage current (view_of hand.old) (view_of hand.new) places.now }
{
    let start = hand.page_start(current.next);
    let groups = places.len() / 8;
    for group in 0..groups {
        let at = group * 8;
        write_places(hand, current, start, at as u32, &places[at..at + 8]);
    }
    let at = groups * 8;
    write_places(hand, current, start, at as u32, &places[at..]);
}
