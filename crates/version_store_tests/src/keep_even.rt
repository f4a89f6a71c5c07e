//! A chooser that keeps every second row.

use pin_rule::choosers::Chooser;
use pin_rule::content::AnyRow;

/// Keeps the rows whose first key word is even.
#[derive(Clone, Copy)]
pub(crate) struct KeepEven;

impl Chooser<AnyRow> for KeepEven {
    ghost use Rattle.std.specs.Prelude.{◌≡◌, ◌%◌, slice_index};

    ghost leads = { λ _ _ _. Unit {0} };

    ghost keeps = { λ _ row. slice_index row 2 % 2 ≡ 0 };

    ghost moves = { λ _ _ _. Unit {0} };

    fn keep(&mut self, row: &[u64]) -> bool {
        match row.get(2) {
            Some(word) => word % 2 == 0,
            None => true,
        }
    }
}
