//! What takes a text byte by byte.

ghost use Rattle.std.specs.Prelude.{◌≡◌, ◌+◌, ◌-◌, ◌^◌, ◌++◌, ◌∷◌, [], ℕ, min, OnOk};
ghost use Rattle.grammar_text.specs.declared.output.Length.{Length};

use crate::NoMemory;
use crate::text::Text;
use std::convert::Infallible;

/// What takes a text byte by byte.
pub trait Output {
    /// Why a byte may be refused.
    type Error;

    /// The output after one more byte.
    ghost after: { Self → ℕ → Self };

    /// Takes one more byte.
    fn put(&mut self, byte: u8) -> Result<(), Self::Error>
        ensures { OnOk result (self.new ≡ after self.old byte) };
}

/// A text takes each byte as its last.
impl Output for Text {
    type Error = NoMemory;

    ghost after = { λ text byte. text ++ byte ∷ [] };

    fn put(&mut self, byte: u8) -> Result<(), NoMemory> {
        self.push(byte)
    }
}

/// How many bytes there were. It counts up to the largest number that it can hold.
#[derive(Drop)]
pub(crate) struct Length {
    /// How many bytes were put.
    pub(crate) bytes: usize,
}

impl Output for Length {
    type Error = Infallible;

    ghost after = { λ length _. record { bytes = min (length.bytes + 1) (2 ^ 64 - 1) } };

    fn put(&mut self, _byte: u8) -> Result<(), Infallible> {
        self.bytes = self.bytes.saturating_add(1);
        Ok(())
    }
}
