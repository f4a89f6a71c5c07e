//! Why a line is no edit.

ghost use Rattle.std.specs.Prelude.{◌≡◌};
ghost use Rattle.grammar_text.specs.declared.bad_edit.BadEdit.TheVariants.{NoMemory};

use std::alloc::{AllocError, AllocFailed};
use std::fmt;
use thiserror::Error;

/// Why a line is no edit: what is wrong with the leftmost piece that is wrong. An offset counts the bytes
/// of the line before a place.
#[derive(Clone, Copy, PartialEq, Eq, Error)]
pub enum BadEdit {
    /// The line ends where a piece should come, and the offset is its length. Or a piece comes that is not
    /// the word that should stand there, or that follows a whole edit, and the offset is where it begins.
    /// Or a literal's second quote is not followed by a blank or the line's end, but by the byte at the
    /// offset.
    #[error("the line has not the shape of an edit at byte {offset}")]
    Shape {
        /// Where the wrong piece begins, or the wrong byte stands, or the line ends.
        offset: u32,
    },
    /// What begins at the offset should be a name, and is none.
    #[error("no name at byte {offset}")]
    BadName {
        /// Where the piece begins that is no name.
        offset: u32,
    },
    /// The quote at the offset begins no literal: it has no second quote, no bytes or too many between the
    /// two, or a backslash before a byte that takes none.
    #[error("no literal at byte {offset}")]
    BadLiteral {
        /// Where the first quote stands.
        offset: u32,
    },
    /// The right side has all the symbols that it may have, and something more begins at the offset.
    #[error("too many symbols at byte {offset}")]
    TooManySymbols {
        /// Where the piece begins that is one too many.
        offset: u32,
    },
    /// Each piece is right, but the edit as it is written has more than [`EDIT_LIMIT`](crate::EDIT_LIMIT)
    /// bytes. The offset is 0.
    #[error("the edit is too long")]
    TooLong {
        /// Always 0, as no place in the line is at fault.
        offset: u32,
    },
    /// Memory ran out.
    #[error("out of memory")]
    NoMemory,
}

impl fmt::Debug for BadEdit {
    /// Writes the message, as `Display` does.
    fn fmt<W: fmt::Write>(&self, f: &mut fmt::Formatter<W>) -> fmt::Result {
        fmt::Display::fmt(self, f)
    }
}

impl From<AllocError> for BadEdit {
    ghost from_gives = { λ _ e. e ≡ NoMemory };

    fn from(_error: AllocError) -> BadEdit {
        BadEdit::NoMemory
    }
}

impl<T: Drop> From<AllocFailed<T>> for BadEdit {
    ghost from_gives = { λ _ e. e ≡ NoMemory };

    fn from(_error: AllocFailed<T>) -> BadEdit {
        BadEdit::NoMemory
    }
}
