//! Which page is gone through when a version is given up.

ghost use Rattle.std.specs.Prelude.{◌<◌};

use pin_rule::sizes::Sizes;

/// The page of a version that is given up, and that of the version that
/// follows.
#[derive(Clone, Copy)]
pub(crate) struct Leaving {
    /// How large the table is.
    pub(crate) sizes: Sizes,
    /// The page of the version that is given up.
    pub(crate) page: u32,
    /// The page of the version after it.
    pub(crate) next: u32,
    ghost page_in: { page < sizes.versions },
    ghost next_in: { next < sizes.versions },
}
