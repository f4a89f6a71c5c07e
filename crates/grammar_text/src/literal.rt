//! The text between a literal's quotes.

ghost use Rattle.std.specs.Prelude.{◌≡◌, List, ℕ, IfOk, Option};
ghost use Rattle.std.specs.Option.{option_map, option_copied};
ghost use Rattle.grammar_text.specs.declared.limits.TheConstants.{LITERAL_LIMIT};
ghost use Rattle.grammar_text.specs.Spelling.{unescaped};
ghost use Rattle.grammar_text.specs.Reading.{byte_at, behind_quote, literal_at};

use crate::limits::LITERAL_LIMIT;
use crate::text::Text;
use std::alloc::{AllocError, Global};

/// What the letter behind a backslash stands for.
fn unescaped(letter: u8) -> Option<u8>
    ensures { result ≡ unescaped letter }
{
    match letter {
        b'"' => Some(b'"'),
        b'\\' => Some(b'\\'),
        b'n' => Some(b'\n'),
        b't' => Some(b'\t'),
        _ => None,
    }
}

/// One byte of a literal, by an escape or by itself, and the bytes behind it.
fn byte_of(text: &[u8]) -> Option<(u8, &[u8])>
    ensures { option_map (λ found. (found.0, found.1.now)) result ≡ byte_at text.now }
{
    match text {
        [] | [b'"', ..] | [b'\\'] => None,
        [b'\\', letter, rest @ ..] => Some((unescaped(*letter)?, rest)),
        [byte, rest @ ..] => Some((*byte, rest)),
    }
}

/// What is left behind the closing quote.
fn closed(text: &[u8]) -> Option<&[u8]>
    ensures { option_copied result ≡ behind_quote text.now }
{
    match text {
        [b'"', rest @ ..] => Some(rest),
        _ => None,
    }
}

/// A literal behind its opening quote, and what is left behind its closing one.
pub(crate) fn literal_of(alloc: Global, text: &[u8]) -> Result<Option<(Text, &[u8])>, AllocError>
    ensures { IfOk result (λ read. option_map (λ found. (found.0, found.1.now)) read ≡ literal_at LITERAL_LIMIT text.now) }
{
    let mut bytes = Vec::new(alloc);
    let mut rest = text;
    while bytes.len() < LITERAL_LIMIT {
        let Some((byte, behind)) = byte_of(rest) else {
            break;
        };
        bytes.push(byte)?;
        rest = behind;
    }
    match closed(rest) {
        Some(behind) => Ok(Some((Text::from_vec(bytes), behind))),
        None => Ok(None),
    }
}
