//! Keys and expansions of the small grammar, in words and back.

use edit_log::DefId;
use forest::SymbolId;
use isg_states::{Mark, Marks, ScanExpansion, ScanKey};
use item_sets::{Expansion, Kernel};
use row_coding::{item_key, item_payload, read_items, read_scan, scan_key, scan_payload};
use std::alloc::{AllocError, Global};

const ITEMS: [u64; 12] = [3, 0, 0, 1, 1, 1, 2, 33, 65, 3, 1, 97];

const RANGES: [u64; 7] = [2, 11051, 1, 1024, 24929, 1, 1536];

/// The expansion of the start kernel.
fn items(alloc: Global) -> Result<Expansion, AllocError> {
    read_items(alloc, &ITEMS)
}

/// The expansion of the scanner's start.
fn ranges(alloc: Global) -> Result<ScanExpansion, AllocError> {
    read_scan(alloc, &RANGES)
}

/// The key of the first byte of `"a"`.
fn set_key(alloc: Global) -> Result<ScanKey, AllocError> {
    let mark = Mark {
        def: DefId::Literal(SymbolId(3)),
        index: 0,
    };
    Ok(ScanKey::Set(Marks::of(alloc, &[mark])?))
}

/// Adds the words, each behind a blank.
fn tell_words(alloc: Global, told: &mut String, words: &[u64]) -> Result<(), AllocError> {
    for word in words {
        told.push_str(&format!(in alloc; " {word}")?)?;
    }
    Ok(())
}

fn told_words(alloc: Global, words: &[u64]) -> Result<String, AllocError> {
    let mut told = String::new(alloc);
    tell_words(alloc, &mut told, words)?;
    Ok(told)
}

/// Adds the move: its symbol, and then rule and dot of each item.
fn tell_move(
    alloc: Global,
    told: &mut String,
    symbol: SymbolId,
    kernel: &Kernel,
) -> Result<(), AllocError> {
    told.push_str(&format!(in alloc; " {}:", symbol.0)?)?;
    for item in kernel.items() {
        told.push_str(&format!(in alloc; " {}.{}", item.rule.0, item.dot)?)?;
    }
    told.push_str(",")
}

/// The moves and the words of the expansion of the start kernel.
pub(crate) fn told_items(alloc: Global) -> Result<String, AllocError> {
    let expansion = items(alloc)?;
    let mut told = String::new(alloc);
    for entry in expansion.moves.as_slice() {
        tell_move(alloc, &mut told, entry.0, &entry.1)?;
    }
    tell_words(alloc, &mut told, &item_payload(alloc, &expansion)?)?;
    Ok(told)
}

/// The words of the expansion of the scanner's start.
pub(crate) fn told_ranges(alloc: Global) -> Result<String, AllocError> {
    told_words(alloc, &scan_payload(alloc, &ranges(alloc)?)?)
}

/// The words of the key of the start kernel.
pub(crate) fn told_kernel_key(alloc: Global) -> Result<String, AllocError> {
    told_words(alloc, &item_key(alloc, &Kernel::start(alloc))?)
}

/// The words of the key of the scanner's start.
pub(crate) fn told_start_key(alloc: Global) -> Result<String, AllocError> {
    told_words(alloc, &scan_key(alloc, &ScanKey::Start)?)
}

/// The words of the key of the first byte of `"a"`.
pub(crate) fn told_set_key(alloc: Global) -> Result<String, AllocError> {
    told_words(alloc, &scan_key(alloc, &set_key(alloc)?)?)
}
