//! The words of rows.

use crate::lines::{edit_of, other_of};
use crate::table::Table;
use std::alloc::{AllocError, Global};

/// The number, or 0 where it is none.
fn number_in(text: &str) -> u32 {
    match text.parse::<u32>() {
        Ok(number) => number,
        Err(_) => 0,
    }
}

/// A new table with so many pins in place of the old one.
fn answer_new(alloc: Global, table: &mut Table, pins: u32) -> Result<String, AllocError> {
    *table = Table::with_pins(alloc, pins)?;
    table.told(alloc)
}

/// The answer to an edit.
fn answer_edit(alloc: Global, table: &mut Table, line: &str) -> Result<String, AllocError> {
    let command = edit_of(alloc, line)?;
    table.run(alloc, &command)
}

/// The answer to another line of a script.
fn answer_other(alloc: Global, table: &mut Table, line: &str) -> Result<String, AllocError> {
    match other_of(alloc, line)? {
        Some(command) => table.run(alloc, &command),
        None => String::from_str(alloc, "no command"),
    }
}

/// The answer to a line of a script, which begins with the word.
fn answer_line(
    alloc: Global,
    table: &mut Table,
    word: &str,
    line: &str,
) -> Result<String, AllocError> {
    match word {
        "rule" => answer_edit(alloc, table, line),
        "token" => answer_edit(alloc, table, line),
        "skip" => answer_edit(alloc, table, line),
        "drop" => answer_edit(alloc, table, line),
        _ => answer_other(alloc, table, line),
    }
}

/// The answer to the row.
///
/// - `new PINS`: a new table with so many pins, and with a new crew. Told are the version and the pins left.
/// - `graph`: a graph over a pinned page is asked twice for the start kernel, the start of the scanner and the state
///   behind `a`. Told are the expansions, and how they came.
/// - `catch_up`: an empty grammar follows the log of a pinned page. Told are its version, and how many symbols it has.
/// - Any other row is a line of a script: the lines of its reply, with a bar for the end of each, and for a text how the
///   expansions came, for an edit how many rows it dropped.
pub(crate) fn answer(alloc: Global, table: &mut Table, row: &str) -> Result<String, AllocError> {
    let (word, rest) = match row.split_once(' ') {
        Some((word, rest)) => (word, rest),
        None => (row, ""),
    };
    match word {
        "new" => answer_new(alloc, table, number_in(rest)),
        "graph" => table.ask(alloc),
        "catch_up" => table.follow(alloc),
        _ => answer_line(alloc, table, word, row),
    }
}
