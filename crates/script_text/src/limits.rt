//! How large a script and its parts may be.

ghost use Rattle.std.specs.Prelude.{◌≡◌};

/// The most bytes of a script.
pub const SCRIPT_LIMIT: usize = 16_777_216;

/// The most bytes of a text, counted after its escapes are read.
pub const TEXT_LIMIT: usize = 65_536;

/// The most commands of a script.
pub const COMMAND_LIMIT: usize = 65_536;

/// The numbers of the limits.
pub fn limits_of_scripts()
    ensures script { SCRIPT_LIMIT ≡ 16777216 }
    ensures text { TEXT_LIMIT ≡ 65536 }
    ensures commands { COMMAND_LIMIT ≡ 65536 }
{}
