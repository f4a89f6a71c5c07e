//! The one user of a table that makes versions.

ghost use Rattle.std.specs.Prelude.{◌≡◌, ◌≢◌, ◌≤◌, ◌+◌, Some, None, length, replicate};
ghost use Rattle.pin_rule.specs.Hands.{view_of};
ghost use Rattle.pin_rule.specs.Views.{now};
ghost use Rattle.version_store.specs.Roles.{role_of};
ghost use Rattle.version_store.specs.Notes.{IsNotedIn};

use crate::lives::Lives;
use pin_rule::content::Content;
use pin_rule::hand::Hand;
use pin_rule::sizes::Sizes;
use std::alloc::Global;

/// The one user of a table that makes versions. It pins none.
///
/// It keeps the live versions. One buffer is for a row that is read, and one for
/// the places of the page in the making, which is all 0 between edits.
#[derive(Drop)]
pub struct Editor<C: Content> {
    /// Where the memory of its passes comes from.
    pub(crate) alloc: Global,
    /// Its seat at the table.
    pub(crate) hand: Hand<C>,
    /// How large the table is.
    pub(crate) sizes: Sizes,
    /// The live versions.
    pub(crate) lives: Lives,
    /// How many pins it has left, to give to passes.
    pub(crate) left: u32,
    /// A row that is read lies at its start.
    pub(crate) row: Vec<u64>,
    /// The places of the page in the making, all 0 between edits.
    pub(crate) places: Vec<u64>,
    ghost measured: { (view_of hand).sizes ≡ sizes },
    ghost shared: { (view_of hand).share ≢ 0 },
    ghost unpinned: { (view_of hand).pinned ≡ None },
    ghost free: { (view_of hand).own ≡ None },
    ghost editor: { (view_of hand).role ≡ Some (role_of (view_of hand)) },
    ghost idle: { (role_of (view_of hand)).making ≡ None },
    ghost keeps_all: { (role_of (view_of hand)).giving_up ≡ None },
    ghost current: { lives.newest.version ≡ now (view_of hand) },
    ghost noted: { IsNotedIn (role_of (view_of hand)) lives },
    ghost lives_measured: { lives.sizes ≡ sizes },
    ghost log_in: { lives.newest.version ≤ sizes.log },
    ghost counted: { left ≡ (view_of hand).pins_left },
    ghost row_room: { length row.items ≡ sizes.width },
    ghost places_empty: { places.items ≡ replicate sizes.places 0 },
}

impl<C: Content> Editor<C> {
    ghost use Rattle.version_store.specs.Means.{editor_of};

    /// The newest version.
    pub fn version(&self) -> u32
        ensures { result ≡ length (editor_of self.now).log }
    {
        self.lives.newest.version
    }

    /// How many versions are live.
    pub fn live(&self) -> u32
        ensures { result ≡ length (editor_of self.now).older + 1 }
    {
        self.lives.count()
    }
}
