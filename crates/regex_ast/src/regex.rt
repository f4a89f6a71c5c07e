//! Expressions as trees.

use crate::byte_set::ByteSet;

/// What a call answers where memory runs out.
pub type NoMemory = std::alloc::AllocError;

/// A regular expression over bytes.
#[derive(Debug, Drop)]
pub enum Regex {
    /// One byte of the set.
    Class(ByteSet),
    /// A piece of the first, and then a piece of the second.
    Then(Box<Regex>, Box<Regex>),
    /// A piece of either.
    Or(Box<Regex>, Box<Regex>),
    /// Any number of pieces, one after another.
    Star(Box<Regex>),
    /// At least one piece.
    Plus(Box<Regex>),
    /// One piece, or none.
    Maybe(Box<Regex>),
}
