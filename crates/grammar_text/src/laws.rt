//! Laws of the text of edits.

ghost use Rattle.std.specs.Prelude.{◌≡◌, ◌↔◌, List, ℕ, Ok, Err};
ghost use Rattle.grammar_text.specs.declared.bad_edit.BadEdit.{BadEdit};
ghost use Rattle.grammar_text.specs.declared.bad_edit.BadEdit.TheVariants.{NoMemory, TooLong};
ghost use Rattle.grammar_text.specs.declared.edit.Edit.{Edit};
ghost use Rattle.grammar_text.specs.Spelling.{Spells};
ghost use Rattle.grammar_text.specs.Canonical.{canonical};
ghost use Rattle.grammar_text.specs.Limits.{the_limits, PartsFit, IsSound, IsWithinLimits, IsTooLong};
ghost use Rattle.grammar_text.specs.Reading.{edit_of};

/// A line spells at most one edit.
pub fn one_edit()
    ensures { (line : List ℕ) (a b : Edit) → Spells line a → Spells line b → a ≡ b }
{}

/// The canonical text of an edit spells it, wherever some line does.
pub fn canonical_is_spelled()
    ensures { (line : List ℕ) (edit : Edit) → Spells line edit → Spells (canonical edit) edit }
{}

/// The canonical text of a sound edit is read as that edit.
pub fn reads_back()
    ensures { (edit : Edit) → IsSound edit → edit_of (canonical edit) ≡ Ok edit }
{}

/// Memory is never why a line is no edit.
pub fn never_memory()
    ensures { (line : List ℕ) → ¬ (edit_of line ≡ Err NoMemory) }
{}

/// The steps by which [`read_edit`](crate::read_edit) reads give an edit exactly where the line spells it
/// within the limits.
pub fn read_as_spelled()
    ensures { (line : List ℕ) (edit : Edit) → (edit_of line ≡ Ok edit) ↔ (Spells line edit × IsWithinLimits edit) }
{}

/// A line is too long exactly where it spells an edit whose parts are within their limits, and whose
/// canonical text is not. A line with any other error spells no edit with such parts.
pub fn too_long()
    ensures long { (line : List ℕ) (at : ℕ) → (edit_of line ≡ Err (TooLong at)) ↔ ((at ≡ 0) × IsTooLong line) }
    ensures other { (line : List ℕ) (edit : Edit) (why : BadEdit) → edit_of line ≡ Err why → Spells line edit → PartsFit the_limits edit → why ≡ TooLong 0 }
{}
