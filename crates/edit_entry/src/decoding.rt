//! From words to the edit whose entry they are.

ghost use Rattle.std.specs.Prelude.{◌≡◌, ◌≤◌, ◌↔◌, ◌==◌, not, IsTrue, Ok, Err, IfOk, IfErr};
ghost use Rattle.std.specs.List.{list_all};
ghost use Rattle.grammar_text.specs.declared.edit.Edit.{Edit as AnEdit};
ghost use Rattle.grammar_text.specs.declared.limits.TheConstants.{EDIT_LIMIT};
ghost use Rattle.grammar_text.specs.Limits.{IsSound};
ghost use Rattle.edit_entry.specs.declared.bad_entry.BadEntry.{BadEntry as ABadEntry};
ghost use Rattle.edit_entry.specs.Entries.{bytes_of, length_in, text_in, entry_of};
ghost use Rattle.edit_entry.specs.BadEntries.{IsRefusedFor, IsDecoded, HasCause};

use crate::NoMemory;
use crate::bad_entry::BadEntry;
use crate::encoding::encode;
use crate::limits::{ENTRY_WORDS, TEXT_LIMIT};
use grammar_text::{Edit, read_edit};
use std::alloc::{AllocError, Global};

/// The bytes of the words, the lowest of each word first.
fn bytes_of(alloc: Global, words: &[u64]) -> Result<Vec<u8>, NoMemory>
    ensures { IfOk result (λ bytes. bytes.items ≡ bytes_of words.now) }
{
    let mut bytes = Vec::with_capacity(alloc, 8 * ENTRY_WORDS)?;
    for word in words {
        bytes.extend_from_slice(&word.to_le_bytes())?;
    }
    Ok(bytes)
}

/// The text in the words.
fn text_in(alloc: Global, words: &[u64; 32]) -> Result<Vec<u8>, NoMemory>
    ensures { IfOk result (λ text. text.items ≡ text_in words.now) }
{
    let mut text = bytes_of(alloc, &words[1..])?;
    text.truncate(words[0] as usize);
    Ok(text)
}

fn is_line(bytes: &[u8]) -> bool
    ensures { result ≡ list_all (λ byte. not (byte == 10)) bytes.now }
{
    bytes.iter().all(|byte| *byte != b'\n')
}

/// Whether the words are the entry of the edit, to the last byte behind its text.
fn is_entry_of(words: &[u64; 32], edit: &Edit) -> bool
    requires { IsSound edit.now }
    ensures { IsTrue result ↔ (words.now ≡ entry_of edit.now) }
{
    encode(edit).words == *words
}

/// The edit whose entry the words are, where it is known that they are one. Nothing is compared.
pub fn read_entry(alloc: Global, words: &[u64; 32]) -> Result<Edit, NoMemory>
    requires { (edit : AnEdit) × IsSound edit × (words.now ≡ entry_of edit) }
    ensures { (edit : AnEdit) → IsSound edit → words.now ≡ entry_of edit → IfOk result (λ given. given ≡ edit) }
{
    let text = text_in(alloc, words)?;
    match read_edit(alloc, &text) {
        Ok(edit) => Ok(edit),
        // The text is that of an edit, so only memory can be missing.
        Err(_) => Err(AllocError),
    }
}

/// The edit whose entry the words are.
pub fn decode(alloc: Global, words: &[u64; 32]) -> Result<Edit, BadEntry>
    // The words are the entry of what is given, which is sound.
    ensures found { IfOk result (λ edit. IsSound edit × (words.now ≡ entry_of edit)) }
    // The edit is given whose entry the words are, unless memory runs out.
    ensures only { (edit : AnEdit) → IsSound edit → words.now ≡ entry_of edit → IsDecoded result (Ok edit) }
    // An error comes for its cause.
    ensures exact { IfErr result (HasCause words.now) }
    // Where there is a cause, its error comes, unless memory runs out.
    ensures refused { (e : ABadEntry) → IsRefusedFor words.now e → IsDecoded result (Err e) }
{
    let len = words[0];
    if len > TEXT_LIMIT {
        return Err(BadEntry::Length { word: len });
    }
    let text = text_in(alloc, words)?;
    if !is_line(&text) {
        return Err(BadEntry::NotCanonical);
    }
    let edit = read_edit(alloc, &text)?;
    if is_entry_of(words, &edit) {
        Ok(edit)
    } else {
        Err(BadEntry::NotCanonical)
    }
}
