//! Sets of bytes.

ghost use Rattle.std.specs.Prelude.{◌≡◌, ◌↔◌, ◌<◌, ◌+◌, ◌*◌, ◌==◌, ℕ, [], IsTrue, ◌||◌};
ghost use Rattle.std.specs.Int.{bit_at};
ghost use Rattle.regex_ast.specs.Bytes.{has, only, with_range, complement};

use std::marker::Model;

/// A set of bytes, one bit for each.
#[derive(Debug, Drop)]
pub struct ByteSet {
    /// The bits: that of byte `b` is bit `b % 64` of word `b / 64`, the lowest being bit 0.
    words: [u64; 4],
}

impl Model for ByteSet {
    ghost use Rattle.std.specs.Prelude.{List, ℕ};
    ghost use Rattle.regex_ast.specs.Bytes.{bytes_where, bit_of};

    ghost Value = { List ℕ };

    ghost view = { λ s. bytes_where (bit_of s.words) };
}

impl ByteSet {
    /// The set of no byte.
    pub(crate) fn new() -> Self
        ensures { result ≡ [] }
    {
        ByteSet { words: [0; 4] }
    }

    /// The set of one byte.
    pub(crate) fn of(byte: u8) -> Self
        ensures { result ≡ only byte }
    {
        let mut set = ByteSet::new();
        set.insert_range(byte, byte);
        set
    }

    /// Whether the byte is in the set.
    pub fn has(&self, byte: u8) -> bool
        ensures { result ≡ has self.now byte }
    {
        self.words[usize::from(byte / 64)] >> (byte % 64) & 1 == 1
    }

    /// The bits of the 64 bytes from 64 times `number` on, the lowest being that of the first.
    pub fn word(&self, number: usize) -> u64
        requires { number < 4 }
        ensures { (bit : ℕ) → bit < 64 → has self.now (64 * number + bit) ≡ (bit_at result bit == 1) }
    {
        self.words[number]
    }

    pub(crate) fn is_empty(&self) -> bool
        ensures { IsTrue result ↔ (self.now ≡ []) }
    {
        let (a, b) = (self.words[0], self.words[1]);
        let (c, d) = (self.words[2], self.words[3]);
        [a, b, c, d] == [0; 4]
    }

    /// Adds the bytes from `low` to `high`, none where `low` is the greater one.
    pub(crate) fn insert_range(&mut self, low: u8, high: u8)
        ensures { self.new ≡ with_range self.old low high }
    {
        for byte in low..=high {
            self.words[usize::from(byte / 64)] |= 1 << (byte % 64);
        }
    }

    /// Adds the bytes of the other set.
    pub(crate) fn union(&mut self, other: &ByteSet)
        ensures { (b : ℕ) → has self.new b ≡ (has self.old b || has other.now b) }
    {
        let [a, b, c, d] = self.words;
        let [e, f, g, h] = other.words;
        self.words = [a | e, b | f, c | g, d | h];
    }

    /// The bytes that are not in the set.
    pub(crate) fn complement(self) -> Self
        ensures { result ≡ complement self }
    {
        let ByteSet {
            words: [a, b, c, d],
        } = self;
        ByteSet {
            words: [!a, !b, !c, !d],
        }
    }

    pub(crate) fn copy(&self) -> Self
        ensures { result ≡ self.now }
    {
        ByteSet { words: self.words }
    }
}
