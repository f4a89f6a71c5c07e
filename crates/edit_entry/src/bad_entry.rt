//! Why words are no entry.

ghost use Rattle.std.specs.Prelude.{◌≡◌};
ghost use Rattle.edit_entry.specs.declared.bad_entry.BadEntry.TheVariants.{NoMemory};
ghost use Rattle.edit_entry.specs.BadEntries.{refusal_of};

use grammar_text::BadEdit;
use std::alloc::AllocError;
use std::fmt;
use thiserror::Error;

/// Why words are no entry. The first cause in this order counts.
#[derive(Clone, Copy, PartialEq, Eq, Error)]
pub enum BadEntry {
    /// The first word should be the length of a text, and is more than an edit's text may have bytes.
    #[error("a text of {word} bytes")]
    Length {
        /// The first word as it stands.
        word: u64,
    },
    /// The text is one line and no edit. Its offset counts the bytes of the text. It never holds
    /// [`BadEdit::NoMemory`].
    #[error("no edit")]
    Text(BadEdit),
    /// The text has a line's end in it, or is not how its edit is written, or something else than zeros
    /// stands behind it.
    #[error("not as an edit is written")]
    NotCanonical,
    /// Memory ran out.
    #[error("out of memory")]
    NoMemory,
}

impl fmt::Debug for BadEntry {
    /// Writes the message, as `Display` does.
    fn fmt<W: fmt::Write>(&self, f: &mut fmt::Formatter<W>) -> fmt::Result {
        fmt::Display::fmt(self, f)
    }
}

impl From<AllocError> for BadEntry {
    ghost from_gives = { λ _ e. e ≡ NoMemory };

    fn from(_error: AllocError) -> BadEntry {
        BadEntry::NoMemory
    }
}

impl From<BadEdit> for BadEntry {
    ghost from_gives = { λ why e. e ≡ refusal_of why };

    fn from(why: BadEdit) -> BadEntry {
        match why {
            BadEdit::NoMemory => BadEntry::NoMemory,
            why => BadEntry::Text(why),
        }
    }
}
