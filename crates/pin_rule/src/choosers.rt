//! Which rows are kept when the log changes.

use crate::content::{AnyRow, Content};

/// Chooses the rows that are kept when one log takes the place of another. It
/// means two tests: `leads` of two lawful logs, the one before the change and
/// the one after it, and `keeps` of a row. `moves` tells what becomes of the
/// chooser with each row, as for one that counts; one that tells nothing of it
/// takes `λ _ _ _. Unit {0}`.
pub trait Chooser<C: Content> {
    ghost use Rattle.std.specs.Prelude.{◌↔◌, ℕ, List, IsTrue};
    ghost use Rattle.pin_rule.specs.declared.content.Entry.{Entry};
    ghost use Rattle.pin_rule.specs.Choosing.{IsStepFor};

    ghost leads: { Self → List Entry → List Entry → Type 0 };

    ghost keeps: { Self → List ℕ → Type 0 };

    /// Between the chooser before it was asked about a row and the one after.
    ghost moves: { Self → List ℕ → Self → Type 0 };

    /// Whether the row is kept. A row that is kept fits the log after the
    /// change too.
    fn keep(&mut self, row: &[u64]) -> bool
        requires { (first : List Entry) × (next : List Entry) × IsStepFor C.lawful C.fits (leads self.old) row.now first next }
        ensures exact { IsTrue result ↔ keeps self.old row.now }
        ensures fits { IsTrue result → (first next : List Entry) → IsStepFor C.lawful C.fits (leads self.old) row.now first next → C.fits next row.now }
        ensures same_leads { (first next : List Entry) → leads self.new first next ↔ leads self.old first next }
        ensures same_keeps { (words : List ℕ) → keeps self.new words ↔ keeps self.old words }
        ensures moves { moves self.old row.now self.new };
}

/// Keeps each row.
#[derive(Clone, Copy)]
pub struct KeepAll;

impl Chooser<AnyRow> for KeepAll {
    ghost leads = { λ _ _ _. Unit {0} };

    ghost keeps = { λ _ _. Unit {0} };

    ghost moves = { λ _ _ _. Unit {0} };

    fn keep(&mut self, _row: &[u64]) -> bool {
        true
    }
}

/// Keeps no row, whatever the content.
#[derive(Clone, Copy)]
pub struct KeepNone;

impl<C: Content> Chooser<C> for KeepNone {
    ghost leads = { λ _ _ _. Unit {0} };

    ghost keeps = { λ _ _. ⊥ };

    ghost moves = { λ _ _ _. Unit {0} };

    fn keep(&mut self, _row: &[u64]) -> bool {
        false
    }
}
