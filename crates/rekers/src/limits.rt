//! The limit on parses.

ghost use Rattle.std.specs.Prelude.{◌≡◌};
ghost use Rattle.rekers.specs.declared.limits.TheConstants.{SIZE_LIMIT};

/// The most links and visited splits of a parse.
pub const SIZE_LIMIT: u32 = 262_144;

/// The number of the limit on parses.
pub fn limits_of_parses()
    ensures size { SIZE_LIMIT ≡ 262144 }
{}
