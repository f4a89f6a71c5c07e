//! What one command answers.

use crate::keep_even::KeepEven;
use pin_rule::choosers::{KeepAll, KeepNone};
use pin_rule::content::AnyRow;
use slot_store::page::{Look, Page, Put};
use slot_store::pinned::Pinned;
use std::alloc::{AllocError, Global};
use version_store::edit_error::EditError;
use version_store::editor::Editor;

/// Adds the words, each behind a blank.
fn tell_words(alloc: Global, told: &mut String, words: &[u64]) -> Result<(), AllocError> {
    for word in words {
        told.push_str(&format!(in alloc; " {word}")?)?;
    }
    Ok(())
}

/// Looks for the key.
pub(crate) fn told_find<P: Page<AnyRow>>(
    alloc: Global,
    page: &mut P,
    key: u64,
) -> Result<String, AllocError> {
    match page.find(&[key]) {
        Look::Found(payload) => {
            let mut told = String::from_str(alloc, "found")?;
            tell_words(alloc, &mut told, payload)?;
            Ok(told)
        }
        Look::Initial { place } => format!(in alloc; "place {place}"),
        Look::PageFull => String::from_str(alloc, "page full"),
    }
}

/// Publishes a row.
pub(crate) fn told_publish<P: Page<AnyRow>>(
    page: &mut P,
    key: u64,
    payload: &[u64],
) -> &'static str {
    match page.publish(&[key], payload) {
        Put::Made => "made",
        Put::Already => "already",
        Put::PageFull => "page full",
        Put::PoolFull => "pool full",
        Put::TooWide => "too wide",
    }
}

/// The first and the last word of an entry of the log.
pub(crate) fn told_entry(
    alloc: Global,
    page: &mut Pinned<AnyRow>,
    index: u32,
) -> Result<String, AllocError> {
    if index >= page.version() {
        return String::from_str(alloc, "no entry");
    }
    let words = page.log_entry(index);
    format!(in alloc; "{} {}", words[0], words[31])
}

fn told_version(alloc: Global, made: Result<u32, EditError>) -> Result<String, AllocError> {
    match made {
        Ok(version) => format!(in alloc; "version {version}"),
        Err(
            EditError::VersionsFull {
                version,
                taken,
                released,
            },
        ) => format!(in alloc; "versions full {version} {taken} {released}"),
        Err(EditError::LogFull { entries }) => format!(in alloc; "log full {entries}"),
    }
}

/// The entry whose words count on from this one.
pub(crate) fn entry_from(first: u64) -> [u64; 32] {
    let mut entry = [0u64; 32];
    for index in 0..32usize {
        entry[index] = first.wrapping_add(index as u64);
    }
    entry
}

/// Makes a version, with all rows, with every second, or with none.
pub(crate) fn told_edit(
    alloc: Global,
    editor: &mut Editor<AnyRow>,
    keep: &str,
    first: u64,
) -> Result<String, AllocError> {
    let entry = entry_from(first);
    let made = match keep {
        "all" => editor.edit(&entry, &mut KeepAll),
        "even" => editor.edit(&entry, &mut KeepEven),
        _ => editor.edit(&entry, &mut KeepNone),
    };
    told_version(alloc, made)
}
