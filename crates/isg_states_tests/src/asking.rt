//! The questions of the input.

use crate::answers::version_of;
use crate::{plain_search, states};
use edit_lines::take_line;
use edit_log::{Grammar, Refusal};
use std::alloc::{AllocError, Global};

fn told_version(alloc: Global, grammar: &Grammar) -> Result<String, AllocError> {
    format!(in alloc; " {}", version_of(grammar))
}

/// An empty grammar in place of the old one.
fn told_new(alloc: Global, grammar: &mut Grammar) -> Result<String, AllocError> {
    *grammar = Grammar::empty(alloc)?;
    told_version(alloc, grammar)
}

/// Applies the edit of the line.
fn told_edit(alloc: Global, grammar: &mut Grammar, line: &str) -> Result<String, AllocError> {
    match take_line(alloc, grammar, line) {
        Ok(()) => told_version(alloc, grammar),
        Err(Refusal::NoMemory) => Err(AllocError),
        Err(_) => String::from_str(alloc, " refused"),
    }
}

/// One of two answers that are the same, and both where they differ.
fn agreed(told: String, plain: &str) -> Result<String, AllocError> {
    let mut told = told;
    if told.as_str() != plain {
        told.push_str(" DIFFERS")?;
        told.push_str(plain)?;
    }
    Ok(told)
}

/// The marks after the piece, and the definition that is accepted there.
fn told_state(alloc: Global, grammar: &Grammar, piece: &[u8]) -> Result<String, AllocError> {
    let told = states::told_state(alloc, grammar, piece)?;
    let plain = plain_search::told_state(alloc, grammar, piece)?;
    agreed(told, plain.as_str())
}

/// Where each byte leads after the piece.
fn told_ranges(alloc: Global, grammar: &Grammar, piece: &[u8]) -> Result<String, AllocError> {
    let told = states::told_ranges(alloc, grammar, piece)?;
    let plain = plain_search::told_ranges(alloc, grammar, piece)?;
    agreed(told, plain.as_str())
}

/// The answer to the question.
pub(crate) fn answer(
    alloc: Global,
    grammar: &mut Grammar,
    line: &str,
) -> Result<String, AllocError> {
    let (word, rest) = match line.split_once(' ') {
        Some((word, rest)) => (word, rest),
        None => (line, ""),
    };
    match word {
        "new" => told_new(alloc, grammar),
        "edit" => told_edit(alloc, grammar, rest),
        "state" => told_state(alloc, grammar, rest.as_bytes()),
        "ranges" => told_ranges(alloc, grammar, rest.as_bytes()),
        "places" => states::told_places(alloc, grammar, rest),
        _ => String::from_str(alloc, " no question"),
    }
}
