//! Edits as entries of the log, and the edits that words are.

ghost use Rattle.grammar_text.specs.Limits.{IsSound};

use crate::edits::{is_line, refused, written};
use edit_entry::{BadEntry, ENTRY_WORDS, decode, encode};
use grammar_text::{Edit, LINE_LIMIT, read_edit};
use std::alloc::{AllocError, Global};

/// What the words are read as.
fn read_words(alloc: Global, words: &[u64; 32]) -> Result<Edit, BadEntry> {
    decode(alloc, words)
}

fn words_of(edit: &Edit) -> [u64; 32]
    requires { IsSound edit.now }
{
    encode(edit).words
}

/// Whether the words are read as the edit.
fn are_read_as(alloc: Global, words: &[u64; 32], edit: &Edit) -> bool {
    match read_words(alloc, words) {
        Ok(back) => back == *edit,
        Err(_) => false,
    }
}

fn told_words(alloc: Global, words: &[u64; 32]) -> Result<String, AllocError> {
    let mut told = String::new(alloc);
    for word in words.iter() {
        told.push_str(&format!(in alloc; "{word:x} ")?)?;
    }
    Ok(told)
}

/// The words of the edit's entry, and whether they are read as the edit again.
fn told_edit(alloc: Global, edit: &Edit) -> Result<String, AllocError>
    requires { IsSound edit.now }
{
    let words = words_of(edit);
    let mut told = told_words(alloc, &words)?;
    if are_read_as(alloc, &words, edit) {
        told.push_str("there and back")?;
    }
    Ok(told)
}

/// The words of the entry of the line's edit, and whether they are read as it again.
pub(crate) fn told_entry(alloc: Global, line: &[u8]) -> Result<String, AllocError> {
    if line.len() > LINE_LIMIT {
        return String::from_str(alloc, "too long to be read");
    }
    if !is_line(line) {
        return String::from_str(alloc, "more than a line");
    }
    match read_edit(alloc, line) {
        Ok(edit) => told_edit(alloc, &edit),
        Err(error) => refused(alloc, &error),
    }
}

/// The words of a text, whatever it is: its length, and eight bytes a word, the first of them lowest.
fn packed(text: &[u8]) -> [u64; 32] {
    let mut words = [0; ENTRY_WORDS];
    words[0] = text.len() as u64;
    for (at, byte) in text.iter().enumerate() {
        if at < 248 {
            words[1 + at / 8] |= u64::from(*byte) << (at % 8 * 8);
        }
    }
    words
}

fn refused_words(alloc: Global, error: &BadEntry) -> Result<String, AllocError> {
    match error {
        BadEntry::Length { word } => format!(in alloc; "Length {word}"),
        BadEntry::Text(error) => {
            let told = refused(alloc, error)?;
            format!(in alloc; "Text {told}")
        }
        BadEntry::NotCanonical => String::from_str(alloc, "NotCanonical"),
        BadEntry::NoMemory => Err(AllocError),
    }
}

/// The edit that the words are, as it is written, or the refusal.
fn told_decoded(alloc: Global, words: &[u64; 32]) -> Result<String, AllocError> {
    match read_words(alloc, words) {
        Ok(edit) => written(alloc, &edit),
        Err(error) => refused_words(alloc, &error),
    }
}

/// What the words of the text are.
pub(crate) fn told_text(alloc: Global, text: &[u8]) -> Result<String, AllocError> {
    told_decoded(alloc, &packed(text))
}

/// What the words of `rule E ::=` are with this number as the first of them.
pub(crate) fn told_first(alloc: Global, number: &str) -> Result<String, AllocError> {
    let mut words = packed(b"rule E ::=");
    match number.parse::<u64>() {
        Ok(number) => words[0] = number,
        Err(_) => return String::from_str(alloc, "no number"),
    }
    told_decoded(alloc, &words)
}

/// The number, or 64 where it is none.
fn number_in(text: &str) -> usize {
    match text.parse::<usize>() {
        Ok(number) => number,
        Err(_) => 64,
    }
}

/// The words of `rule E ::=` with this bit of this word set too.
fn with_bit(word: usize, bit: usize) -> Option<[u64; 32]> {
    let mut words = packed(b"rule E ::=");
    if word >= ENTRY_WORDS {
        return None;
    }
    if bit >= 64 {
        return None;
    }
    words[word] |= 1 << bit;
    Some(words)
}

/// What the words of `rule E ::=` are with one bit more: `WORD BIT`.
pub(crate) fn told_bit(alloc: Global, row: &str) -> Result<String, AllocError> {
    let (word, bit) = match row.split_once(' ') {
        Some((word, bit)) => (word, bit),
        None => (row, ""),
    };
    match with_bit(number_in(word), number_in(bit)) {
        Some(words) => told_decoded(alloc, &words),
        None => String::from_str(alloc, "no bit"),
    }
}
