//! What the shared table holds of a grammar: keys with their expansions as rows of words, and which rows an
//! edit spoils.
//!
//! `specs/Affected` says when an edit spoils a key, by what expansions contain, and `specs/Changes` what of a
//! key an edit touches. The laws say that the two come to the same. So [`Modify`] tests a row by its words,
//! and expands nothing.
#![tactic(auto)]

use std::alloc::AllocError;

mod choosing;
mod graph_rows;
mod laws;
mod modify;
mod row_parts;
mod touching;

pub use graph_rows::GraphRows;
pub use laws::{
    kept_is_unaffected, keys_fit, one_history, touched_is_affected, untouched_is_unaffected,
};
pub use modify::Modify;
pub use row_coding::{
    Kind, item_key, item_payload, kind_of, read_items, read_scan, scan_key, scan_payload,
};

/// Memory ran out.
pub type NoMemory = AllocError;
