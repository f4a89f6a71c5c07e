//! The positions of expressions and literals.

use crate::expressions::LONGEST;
use grammar_text::LITERAL_LIMIT;
use regex_ast::{Positions, read_regex};
use std::alloc::{AllocError, Global};

/// Appends the numbers in brackets.
fn show_numbers(alloc: Global, numbers: &[u32], out: &mut String) -> Result<(), AllocError> {
    out.push_str(&format!(in alloc; " {numbers:?}")?)
}

/// Whether there is an empty word, the first and the last positions, and those that follow each.
fn shown(alloc: Global, positions: &Positions) -> Result<String, AllocError> {
    let mut out = format!(in alloc; "{}", positions.nullable())?;
    show_numbers(alloc, positions.first(), &mut out)?;
    show_numbers(alloc, positions.last(), &mut out)?;
    for position in 0..positions.count() {
        show_numbers(alloc, positions.follow(position), &mut out)?;
    }
    Ok(out)
}

/// What is told of the positions of the expression of the text.
pub(crate) fn told_positions(alloc: Global, text: &[u8]) -> Result<String, AllocError> {
    if text.len() > LONGEST {
        return String::from_str(alloc, "too long to be read");
    }
    match read_regex(alloc, text) {
        Ok(regex) => shown(alloc, &Positions::of(alloc, &regex)?),
        Err(_) => String::from_str(alloc, "no expression"),
    }
}

/// What is told of the positions of the literal.
pub(crate) fn told_literal(alloc: Global, literal: &[u8]) -> Result<String, AllocError> {
    if literal.is_empty() {
        return String::from_str(alloc, "no literal");
    }
    if literal.len() > LITERAL_LIMIT {
        return String::from_str(alloc, "no literal");
    }
    shown(alloc, &Positions::of_literal(alloc, literal)?)
}
