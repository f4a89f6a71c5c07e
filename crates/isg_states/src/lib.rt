//! The scanner's states by need: sets of positions, where each byte leads from them, and what they accept.
//!
//! A position (Glushkov, 1961) is a class in the expression of a live definition. The state after a piece of a
//! text is the set of positions that may hold its last byte, so no automaton is built ahead. Nothing here keeps
//! a state: the crates above do.
#![tactic(auto)]

use std::alloc::AllocError;

mod byte_ranges;
mod candidates;
mod ends;
mod expansion;
mod laws;
mod mark;
mod marks;
mod next_marks;
mod ranges;
mod sameness;
mod scan_key;
mod winner;

pub use expansion::expand_scan;
pub use laws::{
    accepted_is_winner, after_first, after_longer, last_is_match, one_accepted, one_cost,
    one_expansion, targets_are_marks,
};
pub use mark::Mark;
pub use marks::Marks;
pub use ranges::{Ranges, ScanExpansion};
pub use scan_key::ScanKey;
pub use winner::accepts;

/// Memory ran out.
pub type NoMemory = AllocError;
