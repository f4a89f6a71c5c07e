//! How large an entry is.

ghost use Rattle.std.specs.Prelude.{◌≡◌};

use grammar_text::EDIT_LIMIT;

/// How many words an entry has.
pub const ENTRY_WORDS: usize = 32;

/// The most bytes that a text in an entry may have.
pub(crate) const TEXT_LIMIT: u64 = EDIT_LIMIT as u64;

/// The numbers of the limits.
pub fn limits_of_entries()
    ensures words { ENTRY_WORDS ≡ 32 }
{}
