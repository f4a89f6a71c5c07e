//! How many tokens a chart takes, and how many places they have.

ghost use Rattle.std.specs.Prelude.{◌≡◌, ◌+◌};

/// The most tokens that a chart takes.
pub const MOST_TOKENS: usize = 64;

/// How many places there are at most, before, between and after tokens.
pub const PLACES: usize = MOST_TOKENS + 1;

/// The numbers of the limits.
pub fn limits_of_charts()
    ensures tokens { MOST_TOKENS ≡ 64 }
    ensures places { PLACES ≡ MOST_TOKENS + 1 }
{}
