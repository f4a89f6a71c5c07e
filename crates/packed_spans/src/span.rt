//! Spans, and what stands for a token.

use forest::SymbolId;

/// A symbol with the places between tokens where it begins and ends.
#[derive(Clone, Copy, PartialEq, Eq)]
pub struct Span {
    /// What derives the tokens between the two places.
    pub symbol: SymbolId,
    /// The place where it begins: how many tokens stand before it.
    pub from: u32,
    /// The place where it ends, in the same count.
    pub to: u32,
}

/// What stands for a token among the parts of a split. No span has this number.
pub const TOKEN_PART: u32 = u32::MAX;
