//! Entries of the log: an accepted edit in 32 words, and the edit that such words are.
#![tactic(auto)]

use std::alloc::AllocError;

mod bad_entry;
mod decoding;
mod encoding;
mod entry;
mod laws;
mod limits;
mod packing;

pub use bad_entry::BadEntry;
pub use decoding::{decode, read_entry};
pub use encoding::encode;
pub use entry::Entry;
pub use laws::{entry_or_cause, one_entry};
pub use limits::{ENTRY_WORDS, limits_of_entries};

/// Memory ran out.
pub type NoMemory = AllocError;
