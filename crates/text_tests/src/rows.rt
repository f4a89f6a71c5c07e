//! The words of rows.

use crate::edits::told_edit;
use crate::entries::{told_bit, told_entry, told_first, told_text};
use crate::expressions::{told_bytes, told_expression};
use crate::positions::{told_literal, told_positions};
use crate::scripts::{told_long, told_script};
use std::alloc::{AllocError, Global};

/// The answer to a row of an entry of the log.
fn answer_entry(alloc: Global, word: &str, rest: &str) -> Result<String, AllocError> {
    match word {
        "entry" => told_entry(alloc, rest.as_bytes()),
        "text" => told_text(alloc, rest.as_bytes()),
        "first" => told_first(alloc, rest),
        "bit" => told_bit(alloc, rest),
        _ => String::from_str(alloc, "no word of a row"),
    }
}

/// The answer to the row, in which no signs stand any more.
///
/// - `edit LINE`: the edit as it is written, or the refusal with its offset.
/// - `expression TEXT`: the expression in postfix form, or the refusal with its offset.
/// - `bytes NUMBER ..`: the same for the text of these bytes.
/// - `positions TEXT`: what is told of the positions of the expression.
/// - `literal TEXT`: what is told of the positions of the literal.
/// - `script SCRIPT`: the commands, or the first bad line.
/// - `long COUNT;FRONT;PART;END`: how long that script is, and its first bad line.
/// - `entry LINE`: the words of the edit's entry in the log, and whether they are read as the edit again.
/// - `text TEXT`: the edit that the words of this text are, or the refusal.
/// - `first NUMBER`: the same for `rule E ::=` with another number as the first word.
/// - `bit WORD BIT`: the same for `rule E ::=` with one bit more in a word.
pub(crate) fn answer(alloc: Global, row: &str) -> Result<String, AllocError> {
    let (word, rest) = match row.split_once(' ') {
        Some((word, rest)) => (word, rest),
        None => (row, ""),
    };
    match word {
        "edit" => told_edit(alloc, rest.as_bytes()),
        "expression" => told_expression(alloc, rest.as_bytes()),
        "bytes" => told_bytes(alloc, rest),
        "positions" => told_positions(alloc, rest.as_bytes()),
        "literal" => told_literal(alloc, rest.as_bytes()),
        "script" => told_script(alloc, rest),
        "long" => told_long(alloc, rest),
        _ => answer_entry(alloc, word, rest),
    }
}
