//! The text that a line of a script writes with escapes.

ghost use Rattle.std.specs.Prelude.{◌≡◌, ◌<◌, length, IfOk, IfSome, MatchOption, option_map, Some, None};
ghost use Rattle.script_text.specs.Texts.{unescaped_byte, with_byte_before, text_written};

use std::alloc::{AllocError, Global};

/// The byte that an escape of this letter stands for.
fn unescaped(letter: u8) -> Option<u8>
    ensures { result ≡ unescaped_byte letter }
{
    match letter {
        b'n' => Some(b'\n'),
        b't' => Some(b'\t'),
        b'\\' => Some(b'\\'),
        _ => None,
    }
}

/// The first byte of the text that is written so, and what is written after it; or nothing where a
/// backslash begins no escape.
#[tactic(auto, unfolding(crate::specs::Texts::text_written))]
fn read_byte(written: &[u8]) -> Option<(u8, &[u8])>
    requires { 0 < length written.now }
    ensures shorter { IfSome result (λ read. length read.1.now < length written.now) }
    ensures reads { MatchOption result (text_written written.now ≡ None)
        (λ read. text_written written.now ≡ with_byte_before (Some read.0) (text_written read.1.now)) }
{
    match written {
        [b'\\', letter, rest @ ..] => match unescaped(*letter) {
            Some(byte) => Some((byte, rest)),
            None => None,
        },
        [b'\\'] => None,
        [byte, rest @ ..] => Some((*byte, rest)),
        [] => unreachable!(),
    }
}

/// The text that is written so, or nothing where a backslash begins no escape.
pub(crate) fn read_text(alloc: Global, written: &[u8]) -> Result<Option<Vec<u8>>, AllocError>
    ensures { IfOk result (λ read. option_map (λ text. text.items) read ≡ text_written written.now) }
{
    let mut text = Vec::with_capacity(alloc, written.len())?;
    let mut rest = written;
    while !rest.is_empty() {
        let Some((byte, after)) = read_byte(rest) else {
            return Ok(None);
        };
        text.push(byte)?;
        rest = after;
    }
    Ok(Some(text))
}
