//! Why a text was not parsed.

ghost use Rattle.std.specs.Prelude.{◌≡◌};
ghost use Rattle.rekers.specs.declared.parse_error.ParseError.TheVariants.{NoMemory};

use std::alloc::{AllocError, AllocFailed};

/// Why a parse gives no answer.
#[derive(Clone, Copy, PartialEq, Eq)]
pub enum ParseError {
    /// The parse has more links and visited splits than it may have. The count is the first number above the limit.
    TooLarge { count: u32 },
    /// Memory ran out.
    NoMemory,
}

impl From<AllocError> for ParseError {
    ghost from_gives = { λ _ e. e ≡ NoMemory };

    fn from(_error: AllocError) -> ParseError {
        ParseError::NoMemory
    }
}

impl<T: Drop> From<AllocFailed<T>> for ParseError {
    ghost from_gives = { λ _ e. e ≡ NoMemory };

    fn from(_error: AllocFailed<T>) -> ParseError {
        ParseError::NoMemory
    }
}
