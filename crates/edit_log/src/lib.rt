//! The log of a grammar's edits, and the grammar that a history of edits makes.
#![tactic(auto)]

use std::alloc::AllocError;

mod applying;
mod definitions;
mod fresh_symbols;
mod grammar;
mod laws;
mod lefts;
mod limits;
mod live;
mod live_numbers;
mod named_definitions;
mod preparing;
mod ready;
mod refusal;
mod rules;
mod symbol_table;
mod touch;
mod uses;
mod verdict;

pub use definitions::{DefId, DefIds, DefKind};
pub use edit_entry::{
    BadEntry, ENTRY_WORDS, Entry, decode, encode, entry_or_cause, limits_of_entries, one_entry,
};
pub use grammar::Grammar;
pub use laws::{numbers_are_new, well_formed_always};
pub use limits::{LOG_LIMIT, NEW_LIMIT, TOKEN_LIMIT, limits_of_log};
pub use ready::Ready;
pub use refusal::Refusal;
pub use touch::Touch;
pub use verdict::may;

/// Memory ran out.
pub type NoMemory = AllocError;
