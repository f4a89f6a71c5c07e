//! The tokens of a text, over states of the scanner that a graph expands by need.
//!
//! At each offset the longest piece that a live definition matches is taken. The state after a part of the text
//! is the set of positions after it, and a definition matches the part where the state has a last position of it.
//! In one scan the states that are met get numbers, and a table tells where their bytes lead.
#![tactic(auto)]

mod laws;
mod leading;
mod scan_error;
mod scanning;
mod states;
mod walk;

pub use laws::{limits_of_scans, one_scan};
pub use scan_error::ScanError;
pub use scanning::{SCAN_LIMIT, scan};
