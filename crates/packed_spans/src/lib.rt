//! Spans with their splits, packed, and the forest that they make.
//!
//! A parser adds spans and splits as it finds them, each in constant time and with no allocation of its own.
//! [`PackedSpans::forest`] then takes what a root reaches.
#![tactic(auto)]

mod headers;
mod marks;
mod nodes;
mod packed_spans;
mod places;
mod span;
mod splits;
mod table;

pub use packed_spans::PackedSpans;
pub use span::{Span, TOKEN_PART};
