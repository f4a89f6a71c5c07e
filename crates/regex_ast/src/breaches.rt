//! Where a text breaks the limits.

ghost use Rattle.std.specs.Prelude.{◌≡◌, ◌<◌, ◌+◌, ◌^◌, ◌≤◌, None};
ghost use Rattle.regex_ast.specs.Nests.{noted_piece};

use crate::lexer::Piece;
use crate::limits::{DEPTH_LIMIT, POSITION_LIMIT};

/// Where a text breaks the limits, while its shape is read to the end.
#[derive(Clone, Copy)]
pub(crate) struct Breaches {
    /// How many classes there are so far.
    pub(crate) classes: u32,
    /// The first class with no byte.
    pub(crate) empty: Option<u32>,
    /// The first parenthesis inside too many others.
    pub(crate) deep: Option<u32>,
    /// The first class after too many others.
    pub(crate) many: Option<u32>,
}

impl Breaches {
    pub(crate) fn new() -> Self
        ensures { result ≡ record { classes = 0; empty = None; deep = None; many = None } }
    {
        Breaches {
            classes: 0,
            empty: None,
            deep: None,
            many: None,
        }
    }

    /// Takes note of a piece that begins at the offset `at`, inside `depth` parentheses.
    pub(crate) fn note(&mut self, piece: &Piece, depth: usize, at: u32)
        requires { self.old.classes + 1 < 2 ^ 32 }
        ensures noted_piece { self.new ≡ noted_piece piece.now depth at self.old }
        ensures few { self.new.classes ≤ self.old.classes + 1 }
    {
        match piece {
            Piece::OneOf(set) => {
                if self.empty.is_none() && set.is_empty() {
                    self.empty = Some(at);
                }
                if self.many.is_none() && self.classes >= POSITION_LIMIT {
                    self.many = Some(at);
                }
                self.classes += 1;
            }
            Piece::Open => {
                if self.deep.is_none() && depth >= DEPTH_LIMIT {
                    self.deep = Some(at);
                }
            }
            Piece::Close | Piece::Bar | Piece::StarSign | Piece::PlusSign | Piece::MaybeSign => {}
        }
    }
}
