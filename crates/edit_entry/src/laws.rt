//! Laws of entries.

ghost use Rattle.std.specs.Prelude.{◌≡◌, ◌⊎◌, ◌<◌, ◌^◌, List, ℕ, length};
ghost use Rattle.std.specs.List.{AllByRecursion};
ghost use Rattle.grammar_text.specs.declared.edit.Edit.{Edit};
ghost use Rattle.grammar_text.specs.Limits.{IsSound};
ghost use Rattle.edit_entry.specs.declared.bad_entry.BadEntry.{BadEntry};
ghost use Rattle.edit_entry.specs.Entries.{entry_of};
ghost use Rattle.edit_entry.specs.BadEntries.{IsRefusedFor};

use crate::limits::ENTRY_WORDS;

/// Sound edits with one entry are one edit.
pub fn one_entry()
    ensures { (a b : Edit) → IsSound a → IsSound b → entry_of a ≡ entry_of b → a ≡ b }
{}

/// Words of an entry's size are the entry of a sound edit, or have one cause why they are none.
pub fn entry_or_cause()
    ensures either { (words : List ℕ) → length words ≡ ENTRY_WORDS → AllByRecursion (λ word. word < 2 ^ 64) words
        → ((edit : Edit) × IsSound edit × (words ≡ entry_of edit)) ⊎ ((cause : BadEntry) × IsRefusedFor words cause) }
    ensures not_both { (words : List ℕ) (cause : BadEntry) (edit : Edit) → IsRefusedFor words cause → IsSound edit → ¬ (words ≡ entry_of edit) }
    ensures one { (words : List ℕ) (a b : BadEntry) → IsRefusedFor words a → IsRefusedFor words b → a ≡ b }
{}
