//! What a parse finds.

use forest::Forest;

/// The answer to a text.
#[derive(Drop)]
pub enum Parsed {
    /// START derives the text, and this is its forest.
    Forest(Forest),
    /// START does not derive the text. A state is reached at this place between tokens, and none behind it.
    NoSentence { at: u32 },
}
