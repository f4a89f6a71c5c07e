//! A bench that has pinned its version.

ghost use Rattle.std.specs.Prelude.{◌≡◌, ◌≢◌, Some, None, [], length, replicate};
ghost use Rattle.pin_rule.specs.Hands.{view_of};
ghost use Rattle.pin_rule.specs.Views.{whole};
ghost use Rattle.slot_store.specs.PinnedHands.{view_in, site_in, buffer_in};
ghost use Rattle.version_store.specs.Roles.{role_of};
ghost use Rattle.version_store.specs.Notes.{IsNotedIn};
ghost use Rattle.version_store.specs.Graphs.{IsWholeKnown};

use crate::editor::Editor;
use crate::lives::Lives;
use pin_rule::content::Content;
use pin_rule::hand::Hand;
use slot_store::pinned_hand::PinnedHand;
use std::alloc::Global;

/// The whole of a table, as a bench has it, with a pin on its version. Nobody
/// else uses the table meanwhile, so its page tells its graph. One that is
/// dropped gives the table's memory back.
pub struct Lone<C: Content> {
    /// The memory that the bench takes from.
    pub(crate) alloc: Global,
    /// The hand with the whole share and the editor's role, at work on the page.
    /// Its buffer is the bench's room for a row.
    pub(crate) hand: PinnedHand<C>,
    /// The one version that is live.
    pub(crate) lives: Lives,
    /// Room for the places of a page in the making, all 0.
    pub(crate) places: Vec<u64>,
    ghost has_all: { (view_in hand).share ≡ whole },
    ghost editor: { (view_in hand).role ≡ Some (role_of (view_in hand)) },
    ghost one_version: { (role_of (view_in hand)).older ≡ [] },
    ghost idle: { (role_of (view_in hand)).making ≡ None },
    ghost keeps_all: { (role_of (view_in hand)).giving_up ≡ None },
    ghost noted: { IsNotedIn (role_of (view_in hand)) lives },
    ghost lives_measured: { lives.sizes ≡ (site_in hand).sizes },
    ghost at_version: { (role_of (view_in hand)).newest.version ≡ (site_in hand).version },
    ghost at_page: { (role_of (view_in hand)).newest.page ≡ (site_in hand).page },
    ghost row_room: { length (buffer_in hand) ≡ (site_in hand).sizes.width },
    ghost places_empty: { places.items ≡ replicate (site_in hand).sizes.places 0 },
    ghost all_known: { ∥ IsWholeKnown (site_in hand).sizes (view_in hand).known ∥₁ },
}

/// Gives the memory of the table back.
fn close<C: Content>(hand: Hand<C>)
    requires share { (view_of hand).share ≡ whole }
    requires role { (view_of hand).role ≢ None }
{
    hand.close();
}

impl<C: Content> Lone<C> {
    ghost use Rattle.std.specs.Prelude.{ℕ};
    ghost use Rattle.pin_rule.specs.Hands.{table_of};
    ghost use Rattle.pin_rule.specs.Steps.{after_unpin};
    ghost use Rattle.slot_store.specs.PinnedHands.{place_in};

    /// Drops the pin, and takes the lone bench apart without giving the memory
    /// back.
    pub(crate) fn into_editor(self) -> Editor<C>
        ensures view { (met : ℕ) × (view_of result.hand ≡ after_unpin (view_in self.hand) (site_in self.hand).page met)
            × (table_of result.hand ≡ place_in self.hand) }
        ensures sizes { result.sizes ≡ (site_in self.hand).sizes }
    {
        let Lone {
            alloc,
            hand,
            lives,
            places,
        } = self;
        let left = hand.pins_left();
        let (hand, row) = hand.unpin();
        Editor {
            alloc,
            hand,
            sizes: lives.sizes,
            lives,
            left,
            row,
            places,
        }
    }
}

impl<C: Content> Drop for Lone<C> {
    fn drop(self) {
        let Lone {
            alloc: _,
            hand,
            lives: _,
            places: _,
        } = self;
        let (hand, _buffer) = hand.unpin();
        close(hand);
    }
}
