//! Edits of a grammar and their text: one edit a line, as a person writes it.
#![tactic(auto)]

use std::alloc::AllocError;

mod bad_edit;
mod cursor;
mod edit;
mod laws;
mod limits;
mod literal;
mod name;
mod output;
mod pieces;
mod reading;
mod sameness;
mod symbol;
mod text;
mod writing;

pub use bad_edit::BadEdit;
pub use edit::{DefText, Edit, RuleText};
pub use laws::{
    canonical_is_spelled, never_memory, one_edit, read_as_spelled, reads_back, too_long,
};
pub use limits::{
    EDIT_LIMIT, LINE_LIMIT, LITERAL_LIMIT, NAME_LIMIT, SYMBOL_LIMIT, limits_of_edits,
};
pub use name::Name;
pub use output::Output;
pub use pieces::{split_piece, trimmed};
pub use reading::read_edit;
pub use symbol::{Symbol, Symbols};
pub use text::Text;
pub use writing::{put_edit, write_edit, written_len};

/// Memory ran out.
pub type NoMemory = AllocError;
