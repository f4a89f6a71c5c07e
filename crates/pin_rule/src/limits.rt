//! The largest sizes of a table, and the laws that say their numbers.

ghost use Rattle.std.specs.Prelude.{◌≡◌};

/// Entries of the log.
pub const MOST_ENTRIES: u32 = 16384;
/// Live versions, each with a page.
pub const MOST_VERSIONS: u32 = 16;
/// Places of a page.
pub const MOST_PLACES: u32 = 4096;
/// Rows.
pub const MOST_ROWS: u32 = 4096;
/// Words of a row.
pub const MOST_WIDTH: u32 = 512;
/// Pins over a table's life.
pub const MOST_PINS: u32 = 2_147_483_648;

/// The numbers of the limits.
pub fn limits_of_tables()
    ensures entries { MOST_ENTRIES ≡ 16384 }
    ensures versions { MOST_VERSIONS ≡ 16 }
    ensures places { MOST_PLACES ≡ 4096 }
    ensures rows { MOST_ROWS ≡ 4096 }
    ensures width { MOST_WIDTH ≡ 512 }
    ensures pins { MOST_PINS ≡ 2147483648 }
{}
