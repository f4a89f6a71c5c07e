//! The questions of the input.

use crate::{items, keys, scans, states};
use edit_lines::take_line;
use edit_log::{Grammar, Refusal};
use std::alloc::{AllocError, Global};

fn version_of(grammar: &Grammar) -> u32 {
    grammar.version()
}

fn told_version(alloc: Global, grammar: &Grammar) -> Result<String, AllocError> {
    format!(in alloc; " {}", version_of(grammar))
}

/// An empty grammar in place of the old one.
fn told_new(alloc: Global, grammar: &mut Grammar) -> Result<String, AllocError> {
    *grammar = Grammar::empty(alloc)?;
    told_version(alloc, grammar)
}

/// Applies the edit of the line.
fn told_edit(alloc: Global, grammar: &mut Grammar, line: &str) -> Result<String, AllocError> {
    match take_line(alloc, grammar, line) {
        Ok(()) => told_version(alloc, grammar),
        Err(Refusal::NoMemory) => Err(AllocError),
        Err(_) => String::from_str(alloc, " refused"),
    }
}

/// The answer of what is asked of a graph.
fn answer_of_graph(
    alloc: Global,
    grammar: &Grammar,
    word: &str,
    rest: &str,
) -> Result<String, AllocError> {
    match word {
        "scan" => scans::told_scan(alloc, grammar, rest.as_bytes()),
        "times" => scans::told_times(alloc, grammar, rest),
        "keys" => keys::told_keys(alloc, grammar, rest.as_bytes()),
        "items" => items::told_items(alloc, grammar),
        "states" => states::told_states(alloc, grammar, rest.as_bytes()),
        _ => String::from_str(alloc, " no question"),
    }
}

/// The answer to the question.
pub(crate) fn answer(
    alloc: Global,
    grammar: &mut Grammar,
    line: &str,
) -> Result<String, AllocError> {
    let (word, rest) = match line.split_once(' ') {
        Some((word, rest)) => (word, rest),
        None => (line, ""),
    };
    match word {
        "new" => told_new(alloc, grammar),
        "edit" => told_edit(alloc, grammar, rest),
        _ => answer_of_graph(alloc, grammar, word, rest),
    }
}
