//! Rows of spans and splits.

ghost use Rattle.std.specs.Prelude.{◌≡◌, ◌<◌, ◌⊎◌, ℕ, Contains, IfOk};
ghost use Rattle.packed_spans.specs.declared.span.TheConstants.{TOKEN_PART};

use crate::different::are_different;
use crate::told::told_nodes;
use forest::{RuleId, SymbolId};
use packed_spans::{PackedSpans, TOKEN_PART};
use std::alloc::{AllocError, Global};

/// The number that a digit stands for.
fn digit(byte: u8) -> u32 {
    u32::from(byte.wrapping_sub(b'0'))
}

/// The part that is written so: a span that is there, or else a token.
fn part_of(byte: u8, count: usize) -> u32
    ensures { (result ≡ TOKEN_PART) ⊎ (result < count) }
{
    let part = digit(byte);
    if part as usize >= count {
        return TOKEN_PART;
    }
    part
}

/// The parts that are written so.
fn parts_of(alloc: Global, written: &[u8], count: usize) -> Result<Vec<u32>, AllocError>
    ensures { IfOk result (λ parts. (part : ℕ) → Contains parts.items part → (part ≡ TOKEN_PART) ⊎ (part < count)) }
{
    let mut parts = Vec::new(alloc);
    for byte in written {
        parts.push(part_of(*byte, count))?;
    }
    Ok(parts)
}

/// Adds the span with these digits: its symbol and its ends.
fn add_span(spans: &mut PackedSpans, digits: &[u8]) -> Result<(), AllocError> {
    let [symbol, from, to] = digits else {
        return Ok(());
    };
    spans.add_span(SymbolId(digit(*symbol)), digit(*from), digit(*to))?;
    Ok(())
}

/// Adds the split with these digits: its span, its rule and its parts.
fn add_split(alloc: Global, spans: &mut PackedSpans, digits: &[u8]) -> Result<(), AllocError> {
    let [span, rule, written @ ..] = digits else {
        return Ok(());
    };
    let count = spans.span_count();
    let span = digit(*span);
    if span as usize >= count {
        return Ok(());
    }
    let parts = parts_of(alloc, written, count)?;
    spans.add_split(span, RuleId(digit(*rule)), parts.as_slice())?;
    Ok(())
}

/// Adds what the word says.
fn add_word(alloc: Global, spans: &mut PackedSpans, word: &str) -> Result<(), AllocError> {
    match word.as_bytes() {
        [b's', digits @ ..] => add_span(spans, digits),
        [b'r', digits @ ..] => add_split(alloc, spans, digits),
        _ => Ok(()),
    }
}

/// The spans and splits of the words.
fn spans_of(alloc: Global, words: &str) -> Result<PackedSpans, AllocError> {
    let mut spans = PackedSpans::new(alloc);
    for word in words.split_whitespace() {
        add_word(alloc, &mut spans, word)?;
    }
    Ok(spans)
}

/// What is told of the forest from the root.
fn told_forest(alloc: Global, spans: &mut PackedSpans, root: u32) -> Result<String, AllocError> {
    if root as usize >= spans.span_count() {
        return String::from_str(alloc, "no root");
    }
    if !are_different(spans) {
        return String::from_str(alloc, "a span twice");
    }
    let forest = spans.forest(alloc, root)?;
    told_nodes(alloc, &forest)
}

/// The answer to the row: words, each a span `sXIJ` of symbol X from I to J or a split `rNKPP` of span N by rule K,
/// where a part is a span's number or `t` for a token, and at the end `f` with the number of the root.
pub(crate) fn answer(alloc: Global, row: &str) -> Result<String, AllocError> {
    let Some((words, root)) = row.split_once('f') else {
        return String::from_str(alloc, "no root");
    };
    let [root] = root.as_bytes() else {
        return String::from_str(alloc, "no root");
    };
    let mut spans = spans_of(alloc, words)?;
    told_forest(alloc, &mut spans, digit(*root))
}
