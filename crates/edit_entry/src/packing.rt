//! Bytes into words.

ghost use Rattle.std.specs.Prelude.{◌≡◌, ◌<◌, ◌++◌, ◌∷◌, [], length, nat_lt, if◌then◌else◌};
ghost use Rattle.grammar_text.specs.declared.limits.TheConstants.{EDIT_LIMIT};
ghost use Rattle.edit_entry.specs.Entries.{words_for};

use crate::limits::TEXT_LIMIT;
use grammar_text::Output;
use std::convert::Infallible;
use std::marker::Model;

/// The words of a text that grows byte by byte. A contract sees the text.
#[derive(Drop)]
pub(crate) struct Packer {
    /// The length of the text so far, and its bytes from the second word on, as in an entry.
    words: [u64; 32],
}

impl Model for Packer {
    ghost use Rattle.std.specs.Prelude.{◌≡◌, List, ℕ};
    ghost use Rattle.edit_entry.specs.Entries.{words_for, text_in};

    ghost Value = { List ℕ };

    ghost view = { λ p. text_in p.words };

    ghost invariant = { λ p. p.words ≡ words_for (text_in p.words) };
}

impl Packer {
    pub(crate) fn new() -> Self
        ensures { result ≡ [] }
    {
        Packer { words: [0; 32] }
    }

    fn len(&self) -> u64
        ensures { result ≡ length self.now }
    {
        self.words[0]
    }

    fn push(&mut self, byte: u8)
        requires { length self.old < EDIT_LIMIT }
        ensures { self.new ≡ self.old ++ byte ∷ [] }
    {
        let len = self.words[0];
        let word = 1 + (len / 8) as usize;
        self.words[word] |= u64::from(byte) << (len % 8 * 8);
        self.words[0] = len + 1;
    }

    /// The words of the text.
    pub(crate) fn into_words(self) -> [u64; 32]
        ensures { result ≡ words_for self }
    {
        self.words
    }
}

/// A byte for which the words have no room is left out.
impl Output for Packer {
    type Error = Infallible;

    ghost after = { λ text byte. if nat_lt (length text) EDIT_LIMIT then text ++ byte ∷ [] else text };

    fn put(&mut self, byte: u8) -> Result<(), Infallible> {
        if self.len() < TEXT_LIMIT {
            self.push(byte);
        }
        Ok(())
    }
}
