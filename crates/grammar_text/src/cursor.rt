//! A place in a line.

ghost use Rattle.std.specs.Prelude.{◌≡◌, ◌≤◌, length};
ghost use Rattle.grammar_text.specs.Pieces.{Place, start_of, offset_of, trimmed, piece_of, behind_piece, is_empty};
ghost use Rattle.grammar_text.specs.declared.limits.TheConstants.{LINE_LIMIT};

use crate::limits::LINE_LIMIT;
use crate::pieces::{split_piece, trimmed};
use std::marker::Model;

/// What is left of a line, and how long the line is.
#[derive(Drop)]
pub(crate) struct Cursor<'a> {
    /// How many bytes the whole line has.
    len: usize,
    /// The bytes of the line from the place on.
    left: &'a [u8],
}

impl<'a> Model for Cursor<'a> {
    ghost use Rattle.std.specs.Prelude.{◌≤◌, length};
    ghost use Rattle.grammar_text.specs.Pieces.{Place};
    ghost use Rattle.grammar_text.specs.declared.limits.TheConstants.{LINE_LIMIT};

    ghost Value = { Place };

    ghost view = { λ cursor. record { len = cursor.len; left = cursor.left.now } };

    ghost invariant = { λ cursor. (length cursor.left.now ≤ cursor.len) × (cursor.len ≤ LINE_LIMIT) };
}

impl<'a> Cursor<'a> {
    pub(crate) fn new(line: &'a [u8]) -> Cursor<'a>
        requires { length line.now ≤ LINE_LIMIT }
        ensures { result ≡ start_of line.now }
    {
        Cursor {
            len: line.len(),
            left: line,
        }
    }

    /// How far the place is from the line's first byte.
    pub(crate) fn offset(&self) -> u32
        ensures { result ≡ offset_of self.now }
    {
        (self.len - self.left.len()) as u32
    }

    pub(crate) fn left(&self) -> &'a [u8]
        ensures { result.now ≡ self.now.left }
    {
        self.left
    }

    /// Whether nothing is left.
    pub(crate) fn is_at_end(&self) -> bool
        ensures { result ≡ is_empty self.now.left }
    {
        self.left.is_empty()
    }

    /// The same line's place with only these bytes left.
    pub(crate) fn at(&self, left: &'a [u8]) -> Cursor<'a>
        requires { length left.now ≤ length self.now.left }
        ensures { result ≡ record self.now { left = left.now } }
    {
        Cursor {
            len: self.len,
            left,
        }
    }

    /// The place behind the blanks that come next.
    pub(crate) fn trimmed(&self) -> Cursor<'a>
        ensures { result ≡ record self.now { left = trimmed self.now.left } }
    {
        self.at(trimmed(self.left))
    }

    /// The bytes up to the next blank, and the place behind them.
    pub(crate) fn split_piece(&self) -> (&'a [u8], Cursor<'a>)
        ensures piece { result.0.now ≡ piece_of self.now.left }
        ensures place { result.1 ≡ record self.now { left = behind_piece self.now.left } }
    {
        let (piece, behind) = split_piece(self.left);
        (piece, self.at(behind))
    }
}
