//! The questions of the input.

use crate::lookups::{
    told_kind, told_literal, told_live, told_names, told_numbers, told_positions, told_rule,
    told_under,
};
use crate::plain_scanner::told_tokens;
use crate::touches::told_touch;
use crate::verdicts::{told_edit, told_entry, told_fill, told_new};
use edit_lines::take_line;
use edit_log::Grammar;
use std::alloc::{AllocError, Global};

/// The answer of what only looks up.
fn answer_look_up(
    alloc: Global,
    grammar: &Grammar,
    word: &str,
    rest: &str,
) -> Result<String, AllocError> {
    match word {
        "tokens" => told_tokens(alloc, grammar, rest.as_bytes()),
        "rule" => told_rule(alloc, grammar, rest),
        "under" => told_under(alloc, grammar, rest),
        "names" => told_names(alloc, grammar),
        "numbers" => told_numbers(alloc, grammar),
        "literal" => told_literal(alloc, grammar, rest),
        "live" => told_live(alloc, grammar),
        "kind" => told_kind(alloc, grammar, rest),
        "positions" => told_positions(alloc, grammar, rest),
        _ => String::from_str(alloc, " no question"),
    }
}

/// The answer to the question.
pub(crate) fn answer(
    alloc: Global,
    grammar: &mut Grammar,
    line: &str,
) -> Result<String, AllocError> {
    let (word, rest) = match line.split_once(' ') {
        Some((word, rest)) => (word, rest),
        None => (line, ""),
    };
    match word {
        "new" => told_new(alloc, grammar),
        "edit" => told_edit(alloc, grammar, rest),
        "entry" => told_entry(alloc, grammar, rest),
        "touch" => told_touch(alloc, grammar, rest),
        "fill" => told_fill(alloc, grammar),
        _ => answer_look_up(alloc, grammar, word, rest),
    }
}
