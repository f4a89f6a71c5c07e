//! Numbers and states of the scanner as words.

use isg_states::{Mark, ScanKey};
use std::alloc::{AllocError, Global};

/// The mark's number. Behind this function, which has no contract, it is a plain value.
fn number_of(mark: Mark) -> u64 {
    mark.number()
}

/// Adds the word and the number.
pub(crate) fn tell(
    alloc: Global,
    told: &mut String,
    word: &str,
    number: u64,
) -> Result<(), AllocError> {
    told.push_str(&format!(in alloc; "{word}{number}")?)
}

/// The numbers of the marks, with a blank between two.
fn told_numbers(alloc: Global, marks: &[Mark]) -> Result<String, AllocError> {
    let mut told = String::new(alloc);
    for mark in marks {
        if !told.is_empty() {
            told.push_str(" ")?;
        }
        tell(alloc, &mut told, "", number_of(*mark))?;
    }
    Ok(told)
}

fn tell_set(alloc: Global, told: &mut String, marks: &[Mark]) -> Result<(), AllocError> {
    let numbers = told_numbers(alloc, marks)?;
    told.push_str(" {")?;
    told.push_str(numbers.as_str())?;
    told.push_str("}")
}

/// Adds the state: the start, or the numbers of its marks.
pub(crate) fn tell_key(alloc: Global, told: &mut String, key: &ScanKey) -> Result<(), AllocError> {
    match key {
        ScanKey::Start => told.push_str(" start"),
        ScanKey::Set(marks) => tell_set(alloc, told, marks.items()),
    }
}

/// One of two answers that are the same, and both where they differ.
pub(crate) fn agreed(told: String, again: &str) -> Result<String, AllocError> {
    let mut told = told;
    if told.as_str() != again {
        told.push_str(" DIFFERS")?;
        told.push_str(again)?;
    }
    Ok(told)
}
