//! The words of rows.

use crate::asks::told_asks;
use crate::comparing::told_answers;
use crate::families::told_family;
use crate::grammars::grammar_of;
use crate::texts::asked_once;
use std::alloc::{AllocError, Global};

/// What is told of a row `RULES/TEXT`.
fn told_text(alloc: Global, row: &str) -> Result<String, AllocError> {
    let Some((rules, text)) = row.split_once('/') else {
        return String::from_str(alloc, "no text");
    };
    let grammar = grammar_of(alloc, rules)?;
    match asked_once(alloc, &grammar, text.as_bytes())? {
        Some(answers) => told_answers(alloc, &answers),
        None => String::from_str(alloc, "no tokens"),
    }
}

/// For how many kernels a parse of a row `RULES/TEXT` asks, and how often.
fn told_kernels(alloc: Global, row: &str) -> Result<String, AllocError> {
    let Some((rules, text)) = row.split_once('/') else {
        return String::from_str(alloc, "no text");
    };
    let grammar = grammar_of(alloc, rules)?;
    told_asks(alloc, &grammar, text.as_bytes())
}

/// The answer to the row.
///
/// - `text RULES/TEXT`: what the parser answers for the text, and whether the chart gives the same, which takes 64
///   tokens.
/// - `family SEED GRAMMARS LENGTH`: the same for so many drawn grammars, each with all texts of up to so many letters:
///   what was counted, or the first text for which the two differ.
/// - `asks RULES/TEXT`: for how many kernels a parse of the text asks, how often, and how often two parses do.
pub(crate) fn answer(alloc: Global, row: &str) -> Result<String, AllocError> {
    let (word, rest) = match row.split_once(' ') {
        Some((word, rest)) => (word, rest),
        None => (row, ""),
    };
    match word {
        "text" => told_text(alloc, rest),
        "family" => told_family(alloc, rest),
        "asks" => told_kernels(alloc, rest),
        _ => String::from_str(alloc, "no word of a row"),
    }
}
