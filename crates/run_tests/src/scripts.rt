//! Scripts as rows have them.

use std::alloc::{AllocError, Global};

/// The character that stands for this one in a script, or itself.
fn meant(sign: char) -> char {
    match sign {
        '|' => '\n',
        '␉' => '\t',
        other => other,
    }
}

/// The script of a row, in which a bar stands for the end of a line, and `␉` for a tab.
pub(crate) fn script_of(alloc: Global, row: &str) -> Result<Vec<u8>, AllocError> {
    let mut script = String::new(alloc);
    for sign in row.chars() {
        script.push(meant(sign))?;
    }
    Ok(script.into_bytes())
}

/// The bytes with a bar for each end of a line.
fn with_bars(alloc: Global, bytes: &[u8]) -> Result<Vec<u8>, AllocError> {
    let mut all = Vec::new(alloc);
    for byte in bytes {
        all.push(if *byte == b'\n' { b'|' } else { *byte })?;
    }
    Ok(all)
}

/// What was written, with a bar for each end of a line.
pub(crate) fn told_lines(alloc: Global, written: &[u8]) -> Result<String, AllocError> {
    match String::from_utf8(with_bars(alloc, written)?) {
        Ok(text) => Ok(text),
        Err(_) => String::from_str(alloc, "no text"),
    }
}

/// The text before the first semicolon, and what stands behind it.
pub(crate) fn field(row: &str) -> (&str, &str) {
    match row.split_once(';') {
        Some((first, rest)) => (first, rest),
        None => (row, ""),
    }
}

/// The number, or 0 where it is none.
pub(crate) fn number_in(text: &str) -> u64 {
    match text.parse::<u64>() {
        Ok(number) => number,
        Err(_) => 0,
    }
}

/// The numbers, which blanks part.
pub(crate) fn numbers_in(alloc: Global, text: &str) -> Result<Vec<u64>, AllocError> {
    let mut numbers = Vec::new(alloc);
    for word in text.split_whitespace() {
        numbers.push(number_in(word))?;
    }
    Ok(numbers)
}

/// The script of a row `COUNT;FRONT;PART;END`: the front, as many times the part, and the end.
pub(crate) fn long_of(alloc: Global, row: &str) -> Result<Vec<u8>, AllocError> {
    let (count, rest) = field(row);
    let (front, rest) = field(rest);
    let (part, end) = field(rest);
    let mut script = script_of(alloc, front)?;
    let part = script_of(alloc, part)?;
    for _ in 0..number_in(count) {
        script.extend_from_slice(&part)?;
    }
    script.extend_from_slice(&script_of(alloc, end)?)?;
    Ok(script)
}
