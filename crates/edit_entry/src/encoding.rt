//! From an edit to its entry.

ghost use Rattle.std.specs.Prelude.{◌≡◌};
ghost use Rattle.grammar_text.specs.Limits.{IsSound};
ghost use Rattle.edit_entry.specs.Entries.{entry_of};

use crate::entry::Entry;
use crate::packing::Packer;
use grammar_text::{Edit, put_edit};

/// The entry of the edit. Takes no memory.
pub fn encode(edit: &Edit) -> Entry
    requires { IsSound edit.now }
    ensures { result.words ≡ entry_of edit.now }
{
    let mut text = Packer::new();
    let Ok(()) = put_edit(&mut text, edit);
    Entry {
        words: text.into_words(),
    }
}
