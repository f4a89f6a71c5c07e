//! How large a table is.
ghost use Rattle.std.specs.Prelude.{◌≤◌};
ghost use Rattle.pin_rule.specs.declared.limits.TheConstants.{MOST_ENTRIES, MOST_VERSIONS, MOST_PLACES, MOST_ROWS, MOST_WIDTH, MOST_PINS};

/// The sizes of a table: entries of the log, live versions, places of a page,
/// rows, words of a row, and pins over the table's life.
#[derive(Clone, Copy)]
pub struct Sizes {
    /// Entries of the log, and so versions after the first.
    pub log: u32,
    /// Pages, and so versions that are live at once.
    pub versions: u32,
    /// Places of a page.
    pub places: u32,
    /// Rows that all pages share.
    pub rows: u32,
    /// Words of a row, with the lengths of its key and its payload.
    pub width: u32,
    /// Pins over the table's life.
    pub pins: u32,
    ghost log_in: { (1 ≤ log) × (log ≤ MOST_ENTRIES) },
    ghost versions_in: { (2 ≤ versions) × (versions ≤ MOST_VERSIONS) },
    ghost places_in: { (1 ≤ places) × (places ≤ MOST_PLACES) },
    ghost rows_in: { (1 ≤ rows) × (rows ≤ MOST_ROWS) },
    ghost width_in: { (3 ≤ width) × (width ≤ MOST_WIDTH) },
    ghost pins_in: { pins ≤ MOST_PINS },
}
