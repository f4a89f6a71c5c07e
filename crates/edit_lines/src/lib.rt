//! Edits of lines, and the grammar that takes them, for programs that try crates.
//!
//! What these programs share: the edit of a line, a grammar that takes it, and a plain search for what the pieces of
//! a text match.
#![tactic(auto)]

mod edits;
mod plain_search;

pub use edits::{entry_line, prepared, proper, take, take_line};
pub use plain_search::{reached_in, winner};
