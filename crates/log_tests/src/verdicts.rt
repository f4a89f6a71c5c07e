//! What a grammar takes, and why it does not take an edit.

use crate::answers::version_of;
use edit_lines::{entry_line, take_line};
use edit_log::{Entry, Grammar, LOG_LIMIT, Refusal};
use grammar_text::Name;
use std::alloc::{AllocError, Global};

fn clash(alloc: Global, name: &Name) -> Result<String, AllocError> {
    match std::str::from_utf8(name.bytes()) {
        Ok(name) => format!(in alloc; " clash {name}"),
        Err(_) => String::from_str(alloc, " clash ?"),
    }
}

/// The refusal in a word, and what it names.
pub(crate) fn refused(alloc: Global, refusal: &Refusal) -> Result<String, AllocError> {
    match refusal {
        Refusal::NameClash { name } => clash(alloc, name),
        Refusal::Exists { number } => format!(in alloc; " exists {number}"),
        Refusal::NoSuch => String::from_str(alloc, " absent"),
        Refusal::LogFull { version } => format!(in alloc; " full {version}"),
        Refusal::NoMemory => Err(AllocError),
    }
}

fn told_version(alloc: Global, grammar: &Grammar) -> Result<String, AllocError> {
    format!(in alloc; " {}", version_of(grammar))
}

/// An empty grammar in place of the old one.
pub(crate) fn told_new(alloc: Global, grammar: &mut Grammar) -> Result<String, AllocError> {
    *grammar = Grammar::empty(alloc)?;
    told_version(alloc, grammar)
}

/// Applies the edit of the line where the grammar takes it, and tells the version or the refusal.
pub(crate) fn told_edit(
    alloc: Global,
    grammar: &mut Grammar,
    line: &str,
) -> Result<String, AllocError> {
    match take_line(alloc, grammar, line) {
        Ok(_) => told_version(alloc, grammar),
        Err(refusal) => refused(alloc, &refusal),
    }
}

fn told_words(alloc: Global, entry: &Entry) -> Result<String, AllocError> {
    let mut told = String::new(alloc);
    for word in entry.words {
        told.push_str(&format!(in alloc; " {word:x}")?)?;
    }
    Ok(told)
}

/// The words of the entry of the line's edit, or the refusal.
pub(crate) fn told_entry(
    alloc: Global,
    grammar: &Grammar,
    line: &str,
) -> Result<String, AllocError> {
    match entry_line(alloc, grammar, line) {
        Ok(entry) => told_words(alloc, &entry),
        Err(refusal) => refused(alloc, &refusal),
    }
}

fn fill(alloc: Global, grammar: &mut Grammar) -> Result<(), Refusal> {
    for _ in 0..LOG_LIMIT / 2 {
        take_line(alloc, grammar, "rule E ::= \"a\"")?;
        take_line(alloc, grammar, "drop rule E ::= \"a\"")?;
    }
    Ok(())
}

/// Applies as many edits as one history has, and tells the version or the refusal.
pub(crate) fn told_fill(alloc: Global, grammar: &mut Grammar) -> Result<String, AllocError> {
    match fill(alloc, grammar) {
        Ok(()) => told_version(alloc, grammar),
        Err(refusal) => refused(alloc, &refusal),
    }
}
