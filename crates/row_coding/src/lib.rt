//! Rows of words: the keys of item sets and scanner states, and their expansions, as a shared table keeps them.
//!
//! `specs/Words` is the coding, `specs/Conditions` says what it has room for, and `specs/Rows` how a row is laid
//! out. What is coded is read back: keys and payloads of different values differ.
#![tactic(auto)]

use std::alloc::AllocError;

mod item_reading;
mod item_writing;
mod kinds;
mod laws;
mod pieces;
mod scan_reading;
mod scan_writing;

pub use item_reading::read_items;
pub use item_writing::{item_key, item_payload};
pub use kinds::{Kind, kind_of};
pub use laws::{expansions_fit, one_key, one_payload, one_scan_payload, scan_expansions_fit};
pub use scan_reading::read_scan;
pub use scan_writing::{scan_key, scan_payload};

/// Memory ran out.
pub type NoMemory = AllocError;
