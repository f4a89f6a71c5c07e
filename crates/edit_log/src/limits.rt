//! How long a history may be, how many tokens a text may have, and how many symbols an edit may bring.

ghost use Rattle.std.specs.Prelude.{◌≡◌, ◌+◌};

use grammar_text::SYMBOL_LIMIT;

/// The most edits of a history.
pub const LOG_LIMIT: u32 = 16_384;

/// The most tokens of a text.
pub const TOKEN_LIMIT: usize = 4096;

/// The most symbols, or definitions, that one edit brings: those of a right side, and its left side.
pub const NEW_LIMIT: usize = SYMBOL_LIMIT + 1;

/// The numbers of the limits.
pub fn limits_of_log()
    ensures log { LOG_LIMIT ≡ 16384 }
    ensures tokens { TOKEN_LIMIT ≡ 4096 }
    ensures new { NEW_LIMIT ≡ SYMBOL_LIMIT + 1 }
{}
