//! How large an expression may be.

ghost use Rattle.std.specs.Prelude.{◌≡◌};

/// The most bytes of a text that is read.
pub const REGEX_LIMIT: usize = 248;

/// The most parentheses that stand open at once.
pub const DEPTH_LIMIT: usize = 64;

/// The most classes, each of which is a position.
pub const POSITION_LIMIT: u32 = 200;

/// The numbers of the limits.
pub fn limits_of_regex()
    ensures text { REGEX_LIMIT ≡ 248 }
    ensures depth { DEPTH_LIMIT ≡ 64 }
    ensures positions { POSITION_LIMIT ≡ 200 }
{}
