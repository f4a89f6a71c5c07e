//! The questions of the input.

use crate::words::{told_items, told_kernel_key, told_ranges, told_set_key, told_start_key};
use row_coding::{Kind, kind_of};
use std::alloc::{AllocError, Global};

/// The words of a row, which blanks part.
fn words_in(alloc: Global, text: &str) -> Result<Vec<u64>, AllocError> {
    let mut words = Vec::new(alloc);
    for word in text.split_whitespace() {
        match word.parse::<u64>() {
            Ok(word) => words.push(word)?,
            Err(_) => words.push(u64::MAX)?,
        }
    }
    Ok(words)
}

/// The kind of the row of these words.
fn told_kind(alloc: Global, text: &str) -> Result<String, AllocError> {
    let words = words_in(alloc, text)?;
    match kind_of(&words) {
        Kind::Items => String::from_str(alloc, " items"),
        Kind::Scan => String::from_str(alloc, " scan"),
    }
}

/// The answer to the question.
///
/// - `kernel key`, `start key` and `set key`: the words of the key of the start kernel, of the scanner's start, and of
///   the first byte of `"a"`.
/// - `items`: the moves of the start kernel as they are read from their words, each as its symbol, and then rule and
///   dot of each item, and the words that are written of them again.
/// - `ranges`: the words of the ranges of the scanner's start, read and written again.
/// - `kind of WORD ..`: whether the row of these words is one of items or of the scanner.
pub(crate) fn answer(alloc: Global, question: &str) -> Result<String, AllocError> {
    if let Some(words) = question.strip_prefix("kind of") {
        return told_kind(alloc, words);
    }
    match question {
        "kernel key" => told_kernel_key(alloc),
        "start key" => told_start_key(alloc),
        "set key" => told_set_key(alloc),
        "items" => told_items(alloc),
        "ranges" => told_ranges(alloc),
        _ => String::from_str(alloc, " no question"),
    }
}
