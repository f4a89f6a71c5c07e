//! What matches the pieces of a text.

use forest::{RuleId, SymbolId};
use lists::ListOf;

/// A definition: a literal by the number of its symbol, or a token or a skip by its own number.
#[derive(Clone, Copy, Debug, PartialEq, Eq)]
pub enum DefId {
    /// A literal that a live rule uses, by its symbol.
    Literal(SymbolId),
    /// A token or a skip, by the version that added it.
    Named(RuleId),
}

/// What a piece of a text is that the definition matches.
#[derive(Clone, Copy, Debug, PartialEq, Eq)]
pub enum DefKind {
    /// A token of this kind: the symbol of a literal, or of the token's name.
    Token(SymbolId),
    /// Nothing: the piece is passed over.
    Skip,
}

/// Definitions, literals first.
pub type DefIds = ListOf<DefId>;
