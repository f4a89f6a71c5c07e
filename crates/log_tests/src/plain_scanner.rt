//! A plain, slow scanner: at each offset it tries the pieces from the longest on, and for each of them the
//! live definitions in their order. It shows on worked texts what longest-match tokens are.

ghost use Rattle.std.specs.Prelude.{◌≤◌, length};

use crate::answers::kind_of;
use edit_lines::winner;
use edit_log::{DefId, DefKind, Grammar};
use std::alloc::{AllocError, Global};

/// The length of the longest piece that the text begins with and a definition matches, and that definition.
fn longest(
    alloc: Global,
    grammar: &Grammar,
    text: &[u8],
) -> Result<Option<(usize, DefId)>, AllocError> {
    for shorter in 0..text.len() {
        let len = text.len() - shorter;
        if let Some(definition) = winner(alloc, grammar, &text[..len])? {
            return Ok(Some((len, definition)));
        }
    }
    Ok(None)
}

/// The symbol of a token, and none of a skip.
fn symbol_of(grammar: &Grammar, definition: DefId) -> Option<u32> {
    match kind_of(grammar, definition) {
        Some(DefKind::Token(kind)) => Some(kind.0),
        _ => None,
    }
}

/// The token with the number of its symbol and the offsets of its ends, and nothing of a skip.
fn tell_token(
    alloc: Global,
    symbol: Option<u32>,
    from: usize,
    to: usize,
) -> Result<String, AllocError> {
    match symbol {
        Some(number) => format!(in alloc; " {number} {from} {to},"),
        None => Ok(String::new(alloc)),
    }
}

/// Tells what begins at the offset, and gives the offset behind it: that of the text's end where no
/// definition matches.
fn tell_next(
    alloc: Global,
    grammar: &Grammar,
    text: &[u8],
    offset: usize,
    told: &mut String,
) -> Result<usize, AllocError>
    requires { offset ≤ length text.now }
{
    let Some((len, definition)) = longest(alloc, grammar, &text[offset..])? else {
        told.push_str(&format!(in alloc; " no token at {offset}")?)?;
        return Ok(text.len());
    };
    let end = offset + len.min(text.len() - offset);
    told.push_str(&tell_token(alloc, symbol_of(grammar, definition), offset, end)?)?;
    Ok(end)
}

/// The tokens of the text, each with the number of its symbol and the offsets of its ends.
pub(crate) fn told_tokens(
    alloc: Global,
    grammar: &Grammar,
    text: &[u8],
) -> Result<String, AllocError> {
    let mut told = String::new(alloc);
    let mut offset = 0;
    for _ in 0..text.len() {
        if offset >= text.len() {
            return Ok(told);
        }
        offset = tell_next(alloc, grammar, text, offset, &mut told)?;
    }
    Ok(told)
}
