//! Symbols by number, right sides, and tokens.

ghost use Rattle.std.specs.Prelude.{◌≡◌};
ghost use Rattle.forest.specs.declared.symbols.TheConstants.{START};

use lists::ListOf;

/// The number of a symbol: of a name, or of a literal.
#[derive(Clone, Copy, PartialEq, Eq, PartialOrd, Ord, Hash, Debug)]
pub struct SymbolId(pub u32);

/// The symbol that a whole text is derived from.
pub const START: SymbolId = SymbolId(0);

/// START has the lowest number.
pub fn number_of_start()
    ensures { START.0 ≡ 0 }
{}

/// A piece of a text, with its kind and the offsets of its first byte and of the byte after its last.
#[derive(Clone, Copy, PartialEq, Eq, PartialOrd, Ord, Hash, Debug)]
pub struct Token {
    /// The symbol of the literal or of the token that matched the piece.
    pub kind: SymbolId,
    /// The offset of its first byte.
    pub from: u32,
    /// The offset of the byte after its last.
    pub to: u32,
}

/// The symbols of a right side, from left to right.
pub type Symbols = ListOf<SymbolId>;
