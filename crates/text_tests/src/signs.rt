//! Signs that stand for bytes that cannot be seen.
//!
//! In rows and answers the picture of a control character, as `␉`, stands for it. In scripts a bar ends a line.

use std::alloc::{AllocError, Global};

/// The character that the sign stands for.
fn meant(sign: char) -> char {
    match sign {
        '␀' => '\0',
        '␃' => '\u{3}',
        '␉' => '\t',
        '␊' => '\n',
        '␍' => '\r',
        '␟' => '\u{1f}',
        '␡' => '\u{7f}',
        other => other,
    }
}

/// The text that the signs stand for.
pub(crate) fn text_of(alloc: Global, signs: &str) -> Result<String, AllocError> {
    let mut text = String::new(alloc);
    for sign in signs.chars() {
        text.push(meant(sign))?;
    }
    Ok(text)
}

/// The sign of a character, or itself.
fn sign_of(meant: char) -> char {
    match meant {
        '\t' => '␉',
        '\r' => '␍',
        other => other,
    }
}

/// The text with signs for what cannot be seen.
pub(crate) fn signs_of(alloc: Global, text: &str) -> Result<String, AllocError> {
    let mut signs = String::new(alloc);
    for character in text.chars() {
        signs.push(sign_of(character))?;
    }
    Ok(signs)
}

/// The bytes with signs for what cannot be seen, or that they are no text.
pub(crate) fn signs_of_bytes(alloc: Global, bytes: &[u8]) -> Result<String, AllocError> {
    match std::str::from_utf8(bytes) {
        Ok(text) => signs_of(alloc, text),
        Err(_) => String::from_str(alloc, "no text"),
    }
}

/// The script of a row, in which a bar stands for the end of a line.
pub(crate) fn script_of(alloc: Global, row: &str) -> Result<Vec<u8>, AllocError> {
    let mut script = Vec::new(alloc);
    for byte in row.as_bytes() {
        script.push(if *byte == b'|' { b'\n' } else { *byte })?;
    }
    Ok(script)
}
