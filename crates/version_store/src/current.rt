//! The current version, and where the next one goes.

ghost use Rattle.std.specs.Prelude.{◌<◌, ◌≤◌};

use pin_rule::sizes::Sizes;

/// The current version and its page, in a table of these sizes, and the page of
/// the version that is to follow.
#[derive(Clone, Copy)]
pub(crate) struct Current {
    /// How large the table is.
    pub(crate) sizes: Sizes,
    /// The current version.
    pub(crate) version: u32,
    /// Its page.
    pub(crate) page: u32,
    /// The page of the version that is to follow.
    pub(crate) next: u32,
    ghost version_in: { version ≤ sizes.log },
    ghost page_in: { page < sizes.versions },
    ghost next_in: { next < sizes.versions },
}
