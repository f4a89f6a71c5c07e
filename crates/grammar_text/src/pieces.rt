//! The pieces of a line, which blanks part.

ghost use Rattle.std.specs.Prelude.{◌≡◌, ◌≤◌, length};
ghost use Rattle.grammar_text.specs.Pieces.{trimmed, piece_of, behind_piece, is_blank, blank_led};

/// Whether the byte is a space or a tab.
fn is_blank(byte: u8) -> bool
    ensures { result ≡ is_blank byte }
{
    byte == b' ' || byte == b'\t'
}

/// Whether a piece may end before these bytes: a blank comes next, or nothing.
pub(crate) fn is_blank_led(bytes: &[u8]) -> bool
    ensures { result ≡ blank_led bytes.now }
{
    match bytes {
        [] => true,
        [first, ..] => is_blank(*first),
    }
}

/// The bytes from the first that is no blank, which is a space or a tab.
pub fn trimmed(bytes: &[u8]) -> &[u8]
    ensures value { result.now ≡ trimmed bytes.now }
    ensures within { length result.now ≤ length bytes.now }
{
    let mut left = bytes;
    while let [first, others @ ..] = left {
        if !is_blank(*first) {
            break;
        }
        left = others;
    }
    left
}

/// The bytes up to the first blank, and those from it on.
pub fn split_piece(bytes: &[u8]) -> (&[u8], &[u8])
    ensures piece { result.0.now ≡ piece_of bytes.now }
    ensures behind { result.1.now ≡ behind_piece bytes.now }
    ensures within { length result.1.now ≤ length bytes.now }
{
    let mut end = 0;
    while end < bytes.len() && !is_blank(bytes[end]) {
        end += 1;
    }
    bytes.split_at(end)
}
