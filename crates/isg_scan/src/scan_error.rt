//! Why a text has no tokens.

ghost use Rattle.std.specs.Prelude.{◌≡◌};
ghost use Rattle.isg_scan.specs.declared.scan_error.ScanError.TheVariants.{NoMemory};

use std::alloc::{AllocError, AllocFailed};

/// Why a scan gives no tokens.
#[derive(Clone, Copy, PartialEq, Eq)]
pub enum ScanError {
    /// No live definition matches a piece that begins at this offset, where a byte is there.
    NoToken {
        /// How many bytes of the text stand before the piece.
        offset: u32,
    },
    /// At this offset a token begins for which there is no room.
    TooManyTokens {
        /// How many bytes of the text stand before the token.
        offset: u32,
    },
    /// Memory ran out.
    NoMemory,
}

impl From<AllocError> for ScanError {
    ghost from_gives = { λ _ e. e ≡ NoMemory };

    fn from(_error: AllocError) -> ScanError {
        ScanError::NoMemory
    }
}

impl<T: Drop> From<AllocFailed<T>> for ScanError {
    ghost from_gives = { λ _ e. e ≡ NoMemory };

    fn from(_error: AllocFailed<T>) -> ScanError {
        ScanError::NoMemory
    }
}
