//! Laws of the layout and of the rule.

ghost use Rattle.std.specs.Prelude.{◌≡◌, ◌≢◌, ℕ, List, None};
ghost use mathlib.Core.Option as maybe;
ghost use lib.ListN.{get_elem?};
ghost use Rattle.pin_rule.specs.declared.sizes.Sizes.{Sizes};
ghost use Rattle.pin_rule.specs.declared.view.View.{View};
ghost use Rattle.pin_rule.specs.Layout.{full_sizes, claims_at, pages_at, log_at, rows_at, word_count};
ghost use Rattle.pin_rule.specs.Views.{whole, AreOfTwoSeats};
ghost use Rattle.pin_rule.specs.PartShares.{OwnsNothing};
ghost use Rattle.pin_rule.specs.Lawful.{Lawful};

use crate::content::Content;

/// Where the parts of the largest table begin, and how many words it has.
pub fn layout_of_the_full_table()
    ensures claims { claims_at full_sizes ≡ 17 }
    ensures pages { pages_at full_sizes ≡ 4113 }
    ensures log { log_at full_sizes ≡ 69649 }
    ensures rows { rows_at full_sizes ≡ 593937 }
    ensures words { word_count full_sizes ≡ 2691089 }
{}

/// Where one view has the whole share, no other has a share, a pin, a row or the
/// editor's role. A step needs a share, so no other makes one.
pub fn alone<C: Content>()
    ensures share { (z : Sizes) (words : List ℕ) (views : List View) (i j : ℕ) (v w : View) → Lawful C.lawful C.fits z words views
        → AreOfTwoSeats views i j v w → v.share ≡ whole → w.share ≡ 0 }
    ensures nothing { (z : Sizes) (words : List ℕ) (views : List View) (i j : ℕ) (v w : View) → Lawful C.lawful C.fits z words views
        → AreOfTwoSeats views i j v w → v.share ≡ whole → OwnsNothing w }
{}

/// The view that has the whole share has the editor's role. So its hand is the
/// lender of the table.
pub fn whole_share_has_the_role<C: Content>()
    ensures { (z : Sizes) (words : List ℕ) (views : List View) (i : ℕ) (v : View) → Lawful C.lawful C.fits z words views
        → get_elem? views i ≡ maybe.some v → v.share ≡ whole → v.role ≢ None }
{}
