//! The texts of places, made once.

ghost use Rattle.std.specs.Prelude.{◌≡◌, ◌++◌, codes, IfSome, OnOk, OnErr};
ghost use Rattle.forest_print.specs.Lines.{cut_text};
ghost use Rattle.forest_print.specs.Parts.{ArePlaces};

use crate::NoMemory;
use crate::pieces::{Lines, Piece};
use itoa::Buffer;
use std::alloc::Global;

/// Places from here on are written anew each time, so that a table of places stays small.
const MOST: u32 = 10_000;

/// A blank and the number.
pub(crate) fn piece_of(place: u32) -> Piece
    ensures { result ≡ cut_text place }
{
    let mut piece = Piece::new();
    piece.add(b" ");
    piece.add(Buffer::new().format(place).as_bytes());
    piece
}

/// The pieces for the places from 0 on, as far as they are made.
#[derive(Drop)]
pub(crate) struct Places {
    /// For each place, in order, a blank and its number.
    pieces: Vec<Piece>,
    ghost each: { ArePlaces pieces.items },
}

impl Places {
    /// The pieces for the places up to the last one, or up to 10,000 of them.
    pub(crate) fn up_to(alloc: Global, last: u32) -> Result<Places, NoMemory> {
        let count = last.min(MOST - 1) + 1;
        let mut pieces = Vec::with_capacity(alloc, count as usize)?;
        for place in 0..count {
            pieces.push(piece_of(place))?;
        }
        Ok(Places { pieces })
    }

    /// The piece for a place, if it is made.
    #[inline(always)]
    fn get(&self, place: u32) -> Option<&Piece>
        ensures { IfSome result (λ piece. piece.now ≡ cut_text place) }
    {
        self.pieces.get(place as usize)
    }

    /// Appends a blank and the number, or nothing.
    #[inline(always)]
    pub(crate) fn put(&self, lines: &mut Lines, place: u32) -> Result<(), NoMemory>
        ensures whole { OnOk result (lines.new ≡ lines.old ++ cut_text place) }
        ensures kept { OnErr result (lines.new ≡ lines.old) }
    {
        match self.get(place) {
            Some(piece) => lines.put(piece),
            None => put_far(lines, place),
        }
    }

    /// Appends a blank, the number and a line end, or nothing.
    #[inline(always)]
    pub(crate) fn put_line(&self, lines: &mut Lines, place: u32) -> Result<(), NoMemory>
        ensures whole { OnOk result (lines.new ≡ lines.old ++ cut_text place ++ codes "\n") }
        ensures kept { OnErr result (lines.new ≡ lines.old) }
    {
        match self.get(place) {
            Some(piece) => lines.put_line(piece),
            None => put_far_line(lines, place),
        }
    }

    /// Appends how a line begins, two places and a line end, or nothing.
    #[inline(always)]
    pub(crate) fn put_two(
        &self,
        lines: &mut Lines,
        head: &Piece,
        middle: u32,
        last: u32,
    ) -> Result<(), NoMemory>
        ensures whole { OnOk result (lines.new ≡ lines.old ++ (head.now ++ cut_text middle ++ cut_text last ++ codes "\n")) }
        ensures kept { OnErr result (lines.new ≡ lines.old) }
    {
        let Some(second) = self.get(middle) else {
            return put_far_two(lines, head, middle, last);
        };
        let Some(third) = self.get(last) else {
            return put_far_two(lines, head, middle, last);
        };
        lines.put_three(head, second, third)
    }
}

/// Appends a blank and the number of a place that no table has, or nothing.
#[cold]
#[inline(never)]
fn put_far(lines: &mut Lines, place: u32) -> Result<(), NoMemory>
    ensures whole { OnOk result (lines.new ≡ lines.old ++ cut_text place) }
    ensures kept { OnErr result (lines.new ≡ lines.old) }
{
    lines.put(&piece_of(place))
}

/// The same with a line end.
#[cold]
#[inline(never)]
fn put_far_line(lines: &mut Lines, place: u32) -> Result<(), NoMemory>
    ensures whole { OnOk result (lines.new ≡ lines.old ++ cut_text place ++ codes "\n") }
    ensures kept { OnErr result (lines.new ≡ lines.old) }
{
    lines.put_line(&piece_of(place))
}

/// The line with two places, of which no table has one.
#[cold]
#[inline(never)]
fn put_far_two(lines: &mut Lines, head: &Piece, middle: u32, last: u32) -> Result<(), NoMemory>
    ensures whole { OnOk result (lines.new ≡ lines.old ++ (head.now ++ cut_text middle ++ cut_text last ++ codes "\n")) }
    ensures kept { OnErr result (lines.new ≡ lines.old) }
{
    lines.put_three(head, &piece_of(middle), &piece_of(last))
}
