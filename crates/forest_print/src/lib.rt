//! The lines that tell the forest or the tokens of a text.
//!
//! The lines go to the end of one buffer. Where memory runs out, a prefix of them stands there.
#![tactic(auto)]

use std::alloc::AllocError;

mod forest_lines;
mod heads;
mod line_parts;
mod pieces;
mod places;
mod symbols;
mod token_lines;

pub use forest_lines::print;
pub use token_lines::print_tokens;

/// Memory ran out.
pub type NoMemory = AllocError;
