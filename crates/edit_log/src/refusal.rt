//! Why an edit is not taken.

ghost use Rattle.std.specs.Prelude.{◌≡◌};
ghost use Rattle.edit_log.specs.declared.refusal.Refusal.TheVariants.{NoMemory};

use grammar_text::Name;
use std::alloc::{AllocError, AllocFailed};

/// Why an edit is not taken: the first of these that applies.
#[derive(Debug, Drop)]
pub enum Refusal {
    /// The edit adds a rule for the name of a live token or skip. Or it adds a token or a skip whose name is
    /// `START`, the left side of a live rule, or the name of a live skip or token.
    NameClash {
        /// The left side of the rule, or the name of the token or skip, that the edit adds.
        name: Name,
    },
    /// What the edit adds is live under this number. A token or a skip is told by its name alone.
    Exists {
        /// The number of the rule, token or skip that is live.
        number: u32,
    },
    /// What the edit drops is not live.
    NoSuch,
    /// There is no room for another edit after this version.
    LogFull {
        /// The version of the grammar, which is [`LOG_LIMIT`](crate::LOG_LIMIT).
        version: u32,
    },
    /// Memory ran out.
    NoMemory,
}

impl From<AllocError> for Refusal {
    ghost from_gives = { λ _ e. e ≡ NoMemory };

    fn from(_error: AllocError) -> Refusal {
        Refusal::NoMemory
    }
}

impl<T: Drop> From<AllocFailed<T>> for Refusal {
    ghost from_gives = { λ _ e. e ≡ NoMemory };

    fn from(_error: AllocFailed<T>) -> Refusal {
        Refusal::NoMemory
    }
}
