//! Pieces of a payload: a first word, the number of the words that belong to it, and these.

ghost use Rattle.std.specs.Prelude.{◌≡◌};
ghost use Rattle.row_coding.specs.Reading.{IsCounted, counted_words, rest_of};

/// The words in the piece that these begin with.
pub(crate) fn counted_words(words: &[u64]) -> &[u64]
    requires { IsCounted words.now }
    ensures { result.now ≡ counted_words words.now }
{
    let end = words[1] as usize + 2;
    &words[2..end]
}

/// What follows that piece.
pub(crate) fn rest_of(words: &[u64]) -> &[u64]
    requires { IsCounted words.now }
    ensures { result.now ≡ rest_of words.now }
{
    let end = words[1] as usize + 2;
    &words[end..]
}
