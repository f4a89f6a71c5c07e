//! Which page of which version a walk is on.

ghost use Rattle.std.specs.Prelude.{◌≡◌, ◌<◌, ◌≤◌};
ghost use Rattle.pin_rule.specs.Layout.{version_named, page_named};

use pin_rule::sizes::Sizes;

/// A version's page in a table of these sizes.
#[derive(Clone, Copy)]
pub(crate) struct Site {
    /// How large the table is.
    pub(crate) sizes: Sizes,
    /// The page.
    pub(crate) page: u32,
    /// The version that has it.
    pub(crate) version: u32,
    ghost page_in: { page < sizes.versions },
    ghost version_in: { version ≤ sizes.log },
}

/// The version that CUR names.
pub(crate) fn version_in(current: u64) -> u32
    ensures { result ≡ version_named current }
{
    ((current >> 32) / 16) as u32
}

/// The page that CUR names.
pub(crate) fn page_in(current: u64) -> u32
    ensures { result ≡ page_named current }
{
    ((current >> 32) % 16) as u32
}
