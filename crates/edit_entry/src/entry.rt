//! Entries of the log.

/// One accepted edit as it stands in the log. The first word is the length of the edit's canonical text in
/// bytes. The others hold these bytes, eight in a word, the first in its lowest eight bits, and zeros behind
/// the last.
#[derive(Clone, Copy, PartialEq, Eq, Debug)]
pub struct Entry {
    /// The length of the text, and 31 words for its bytes.
    pub words: [u64; 32],
}
