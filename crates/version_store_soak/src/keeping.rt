//! Which rows each version keeps of the one before, and which rows it may have then.

use pin_rule::choosers::Chooser;
use pin_rule::content::AnyRow;

/// Which rows a version keeps of the one before.
#[derive(Clone, Copy)]
pub(crate) enum Keeping {
    /// Each row.
    All,
    /// Every second row, which is each one with an even key.
    Even,
    /// No row.
    None,
}

/// What the version keeps: no row where eight divides it, else every second row where two does.
pub(crate) fn keeping_of(version: u64) -> Keeping {
    if version % 8 == 0 {
        return Keeping::None;
    }
    if version % 2 == 0 {
        return Keeping::Even;
    }
    Keeping::All
}

/// Whether a row with the key that was published in one version may stand in the page of another. It was not published
/// later, and no version after its own dropped it.
pub(crate) fn may_stand(key: u64, published: u64, version: u64) -> bool {
    let dropped_last = if key % 2 == 0 {
        version - version % 8
    } else {
        version - version % 2
    };
    dropped_last <= published && published <= version
}

/// Keeps the rows whose first key word is even.
#[derive(Clone, Copy)]
pub(crate) struct KeepEven;

impl Chooser<AnyRow> for KeepEven {
    ghost use Rattle.std.specs.Prelude.{◌≡◌, ◌%◌, slice_index};

    ghost leads = { λ _ _ _. Unit {0} };

    ghost keeps = { λ _ row. slice_index row 2 % 2 ≡ 0 };

    ghost moves = { λ _ _ _. Unit {0} };

    fn keep(&mut self, row: &[u64]) -> bool {
        match row.get(2) {
            Some(word) => word % 2 == 0,
            None => true,
        }
    }
}
