//! Replies to commands, as data.

use edit_log::Refusal;
use forest::Token;
use isg_scan::ScanError;
use lists::ListOf;
use rekers::Parsed;

/// Tokens in the order of their text.
pub type TokenList = ListOf<Token>;

/// How the parse of a text came out.
#[derive(Drop)]
pub enum Outcome {
    /// The text has tokens, and they were parsed.
    Parsed(Parsed),
    /// It has none. This is never [`ScanError::NoMemory`].
    Scan(ScanError),
    /// Its parse is larger than [`rekers::SIZE_LIMIT`].
    TooLarge,
}

/// The reply to a command.
#[derive(Drop)]
pub enum Reply {
    /// The edit was taken, and this is the version from then on.
    Edited {
        /// The version after the edit.
        version: u32,
    },
    /// The edit was refused. This is never [`Refusal::NoMemory`].
    Refused(Refusal),
    /// The text was parsed in this version.
    Parse {
        /// How many edits the grammar had.
        version: u32,
        /// The forest, or why there is none.
        outcome: Outcome,
    },
    /// The text was scanned in this version. The error is never [`ScanError::NoMemory`].
    Tokens {
        /// How many edits the grammar had.
        version: u32,
        /// The tokens, or why there are none.
        result: Result<TokenList, ScanError>,
    },
    /// The current version of the table holds expansions of so many keys.
    Held {
        /// How many keys of item sets.
        items: u32,
        /// How many keys of scanner states.
        scan: u32,
    },
}
