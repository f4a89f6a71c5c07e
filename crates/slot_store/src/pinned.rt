//! A user that has pinned a version.
ghost use Rattle.std.specs.Prelude.{◌≡◌, None, []};
ghost use Rattle.slot_store.specs.PinnedHands.{view_in};

use crate::pinned_hand::PinnedHand;
use pin_rule::content::Content;

/// A user of the shared table with a pinned version, whose page it reads and
/// extends. It is not the editor.
#[derive(Drop)]
pub struct Pinned<C: Content> {
    /// The hand at work on the page.
    pub(crate) hand: PinnedHand<C>,
    ghost plain: { (view_in hand).role ≡ None },
    ghost whole_entries: { (view_in hand).log_words ≡ [] },
}
