//! How large the parts of an edit may be.

ghost use Rattle.std.specs.Prelude.{◌≡◌};

/// The most bytes of a name.
pub const NAME_LIMIT: usize = 32;

/// The most bytes of a literal.
pub const LITERAL_LIMIT: usize = 32;

/// The most symbols of a right side.
pub const SYMBOL_LIMIT: usize = 16;

/// The most bytes of an edit's canonical text.
pub const EDIT_LIMIT: usize = 248;

/// The most bytes of a line that is read.
pub const LINE_LIMIT: usize = 16_777_216;

/// The numbers of the limits.
pub fn limits_of_edits()
    ensures name { NAME_LIMIT ≡ 32 }
    ensures literal { LITERAL_LIMIT ≡ 32 }
    ensures symbols { SYMBOL_LIMIT ≡ 16 }
    ensures edit { EDIT_LIMIT ≡ 248 }
    ensures line { LINE_LIMIT ≡ 16777216 }
{}
