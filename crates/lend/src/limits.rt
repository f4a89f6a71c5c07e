//! How many parts the right to one value has.

ghost use Rattle.std.specs.Prelude.{◌≡◌};

/// All parts of the right to one value.
pub const WHOLE: u64 = 4_294_967_296;

/// The numbers of the limits.
pub fn limits_of_loans()
    ensures whole { WHOLE ≡ 4294967296 }
{}
