//! The lines of a script.

ghost use Rattle.std.specs.Prelude.{◌≡◌, ◌+◌, ◌<◌, ◌≤◌, ◌∷◌, length};
ghost use Rattle.grammar_text.specs.Pieces.{IsLine};
ghost use Rattle.script_text.specs.Lines.{lines_of};

use memchr::memchr;

/// The first line of the bytes, and what follows the byte that ends it.
pub(crate) fn split_line(bytes: &[u8]) -> (&[u8], &[u8])
    requires { 0 < length bytes.now }
    ensures lines { lines_of bytes.now ≡ result.0.now ∷ lines_of result.1.now }
    ensures one_line { IsLine result.0.now }
    ensures shorter { length result.0.now + length result.1.now ≤ length bytes.now }
    ensures less { length result.1.now < length bytes.now }
{
    match memchr(b'\n', bytes) {
        Some(len) => (&bytes[..len], &bytes[len + 1..]),
        None => (bytes, &[]),
    }
}
