//! How expressions are read.

use regex_ast::{BadRegex, ByteSet, Regex, read_regex};
use std::alloc::{AllocError, Global};

/// The most bytes that an expression may have.
pub(crate) const LONGEST: usize = 248;

/// Appends the expression in postfix form, each class as its ranges in brackets and a sequence as a dot.
fn show(alloc: Global, regex: &Regex, out: &mut String) -> Result<(), AllocError> {
    let sign = match regex {
        Regex::Class(set) => return show_set(alloc, set, out),
        Regex::Then(first, second) => {
            show(alloc, first, out)?;
            show(alloc, second, out)?;
            "."
        }
        Regex::Or(first, second) => {
            show(alloc, first, out)?;
            show(alloc, second, out)?;
            "|"
        }
        Regex::Star(inner) => {
            show(alloc, inner, out)?;
            "*"
        }
        Regex::Plus(inner) => {
            show(alloc, inner, out)?;
            "+"
        }
        Regex::Maybe(inner) => {
            show(alloc, inner, out)?;
            "?"
        }
    };
    out.push_str(sign)
}

/// Appends the ranges of a set, as `[97-99,120]`.
fn show_set(alloc: Global, set: &ByteSet, out: &mut String) -> Result<(), AllocError> {
    let mut before = "[";
    for byte in 0..=255u8 {
        if !set.has(byte) {
            continue;
        }
        if byte == 0 || !set.has(byte - 1) {
            out.push_str(&format!(in alloc; "{before}{byte}")?)?;
            before = ",";
        } else if byte == 255 || !set.has(byte + 1) {
            out.push_str(&format!(in alloc; "-{byte}")?)?;
        }
    }
    out.push_str("]")
}

/// A refusal by its name and offset.
fn refused(alloc: Global, error: &BadRegex) -> Result<String, AllocError> {
    match error {
        BadRegex::Shape { offset } => format!(in alloc; "Shape {offset}"),
        BadRegex::EmptyClass { offset } => format!(in alloc; "EmptyClass {offset}"),
        BadRegex::TooDeep { offset } => format!(in alloc; "TooDeep {offset}"),
        BadRegex::TooManyPositions { offset } => format!(in alloc; "TooManyPositions {offset}"),
        BadRegex::NoMemory => Err(AllocError),
    }
}

fn shown(alloc: Global, regex: &Regex) -> Result<String, AllocError> {
    let mut out = String::new(alloc);
    show(alloc, regex, &mut out)?;
    Ok(out)
}

/// The expression of the text in postfix form, or the refusal.
pub(crate) fn told_expression(alloc: Global, text: &[u8]) -> Result<String, AllocError> {
    if text.len() > LONGEST {
        return String::from_str(alloc, "too long to be read");
    }
    match read_regex(alloc, text) {
        Ok(regex) => shown(alloc, &regex),
        Err(error) => refused(alloc, &error),
    }
}

/// The expression of the text that has these bytes, which blanks part, or the refusal.
pub(crate) fn told_bytes(alloc: Global, numbers: &str) -> Result<String, AllocError> {
    let mut text = Vec::new(alloc);
    for number in numbers.split_whitespace() {
        match number.parse::<u8>() {
            Ok(byte) => text.push(byte)?,
            Err(_) => return String::from_str(alloc, "no byte"),
        }
    }
    told_expression(alloc, &text)
}
