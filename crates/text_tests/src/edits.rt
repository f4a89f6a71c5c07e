//! What is read of a line of an edit, and how that is written.

ghost use Rattle.std.specs.Prelude.{◌≡◌, not, ◌==◌};
ghost use Rattle.std.specs.List.{list_all};

use crate::signs::signs_of_bytes;
use grammar_text::{BadEdit, Edit, LINE_LIMIT, read_edit, write_edit};
use std::alloc::{AllocError, Global};

pub(crate) fn is_line(bytes: &[u8]) -> bool
    ensures { result ≡ list_all (λ byte. not (byte == 10)) bytes.now }
{
    bytes.iter().all(|byte| *byte != b'\n')
}

/// A refusal by its name and offset.
pub(crate) fn refused(alloc: Global, error: &BadEdit) -> Result<String, AllocError> {
    match error {
        BadEdit::Shape { offset } => format!(in alloc; "Shape {offset}"),
        BadEdit::BadName { offset } => format!(in alloc; "BadName {offset}"),
        BadEdit::BadLiteral { offset } => format!(in alloc; "BadLiteral {offset}"),
        BadEdit::TooManySymbols { offset } => format!(in alloc; "TooManySymbols {offset}"),
        BadEdit::TooLong { offset } => format!(in alloc; "TooLong {offset}"),
        BadEdit::NoMemory => Err(AllocError),
    }
}

/// What is written of the edit, where its copy is equal to it.
pub(crate) fn written(alloc: Global, edit: &Edit) -> Result<String, AllocError> {
    let copy = edit.clone()?;
    if copy != *edit {
        return String::from_str(alloc, "another copy");
    }
    signs_of_bytes(alloc, &write_edit(alloc, edit)?)
}

/// The edit of the line as it is written, or the refusal.
pub(crate) fn told_edit(alloc: Global, line: &[u8]) -> Result<String, AllocError> {
    if line.len() > LINE_LIMIT {
        return String::from_str(alloc, "too long to be read");
    }
    if !is_line(line) {
        return String::from_str(alloc, "more than a line");
    }
    match read_edit(alloc, line) {
        Ok(edit) => written(alloc, &edit),
        Err(error) => refused(alloc, &error),
    }
}
