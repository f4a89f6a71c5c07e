//! Short pieces of lines, and the bytes that they are written to.

ghost use Rattle.std.specs.Prelude.{◌≡◌, ℕ, ◌+◌, ◌^◌, ◌<◌, ◌≤◌, List, [], ◌∷◌, ◌++◌, codes, length, take, drop, slice_index_or, OnOk, OnErr};
ghost use Rattle.std.specs.Vec.{vec_len};

use crate::NoMemory;
use std::marker::Model;

/// How many bytes the room of a piece has.
const ROOM: usize = 32;

/// How many bytes are made ready at a time.
const STEP: usize = 2048;

/// As many bytes as two sizes and a room can come to, whatever numbers the sizes are.
const REACH: usize = 542;

/// A text of less than 32 bytes. After it the room is full of line ends: copying all of it is one move of a known
/// length, and the piece with a line end costs no more than the piece alone.
#[derive(Drop)]
pub(crate) struct Piece {
    /// The bytes of the text, and line ends behind them.
    room: [u8; ROOM],
    /// How many bytes the text has.
    size: u8,
    /// Not read. With it a piece has 40 bytes, and less has to be reckoned to find one in a table.
    spare: [u8; 7],
}

impl Model for Piece {
    ghost Value = { List ℕ };

    ghost view = { λ p. take p.size p.room };

    ghost invariant = { λ p. (p.size < 32) × ((at : ℕ) → p.size ≤ at → slice_index_or p.room at 10 ≡ 10) };
}

impl Piece {
    /// A piece with nothing in it.
    pub(crate) fn new() -> Piece
        ensures { result ≡ [] }
    {
        Piece {
            room: [b'\n'; ROOM],
            size: 0,
            spare: [0; 7],
        }
    }

    /// Puts one more byte at the end.
    fn push(&mut self, byte: u8)
        requires { length self.old < 31 }
        ensures { self.new ≡ self.old ++ byte ∷ [] }
    {
        self.room[usize::from(self.size)] = byte;
        self.size += 1;
    }

    /// Puts more bytes at the end.
    pub(crate) fn add(&mut self, bytes: &[u8])
        requires { length self.old + length bytes.now ≤ 31 }
        ensures { self.new ≡ self.old ++ bytes.now }
    {
        for byte in bytes {
            self.push(*byte);
        }
    }
}

/// Bytes that are written at the end. Those after `end` are made ready ahead, so that a piece is copied whole
/// and only its length counts.
#[derive(Drop)]
pub(crate) struct Lines {
    /// The bytes that were written, and behind them those that are made ready.
    bytes: Vec<u8>,
    /// How many bytes were written.
    end: usize,
}

impl Model for Lines {
    ghost Value = { List ℕ };

    ghost view = { λ l. take l.end l.bytes.items };

    ghost invariant = { λ l. l.end ≤ length l.bytes.items };
}

/// Makes more bytes ready.
#[cold]
#[inline(never)]
fn grow(bytes: &mut Vec<u8>, more: usize) -> Result<(), NoMemory>
    requires { more < 2 ^ 63 }
    ensures kept { take (vec_len bytes.old) bytes.new.items ≡ bytes.old.items }
    ensures grown { OnOk result (vec_len bytes.old + more ≤ vec_len bytes.new) }
    ensures longer { vec_len bytes.old ≤ vec_len bytes.new }
{
    let end = bytes.len() + more.max(STEP);
    bytes.resize(end, 0)
}

/// Sees to it that some bytes are ready after the first `length`.
#[inline(always)]
fn make_room(bytes: &mut Vec<u8>, length: usize, more: usize) -> Result<(), NoMemory>
    requires within { length ≤ vec_len bytes.old }
    requires fits { more < 2 ^ 63 }
    ensures kept { take length bytes.new.items ≡ take length bytes.old.items }
    ensures room { OnOk result (length + more ≤ vec_len bytes.new) }
    ensures longer { length ≤ vec_len bytes.new }
{
    if bytes.len() - length < more {
        return grow(bytes, more);
    }
    Ok(())
}

/// Writes a room over the first bytes, as an array, so that no test is made whether the two overlap.
#[inline(always)]
fn write_front(bytes: &mut [u8], room: &[u8; ROOM])
    requires { 32 ≤ length bytes.old }
    ensures { bytes.new ≡ room.now ++ drop 32 bytes.old }
{
    if let Some(front) = bytes.first_chunk_mut::<ROOM>() {
        *front = *room;
    }
}

/// Writes a room over the bytes from `at` on.
#[inline(always)]
fn write_at(bytes: &mut [u8], at: usize, room: &[u8; ROOM])
    requires { at + 32 ≤ length bytes.old }
    ensures front { (count : ℕ) → count ≤ 32 → take (at + count) bytes.new ≡ take at bytes.old ++ take count room.now }
    ensures len { length bytes.new ≡ length bytes.old }
{
    write_front(&mut bytes[at..], room);
}

/// Writes three pieces and a line end over the first bytes, and tells how many they are.
#[inline(always)]
fn write_three(bytes: &mut [u8], first: &Piece, second: &Piece, third: &Piece) -> usize
    requires { 542 ≤ length bytes.old }
    ensures front { take result bytes.new ≡ first.now ++ second.now ++ third.now ++ codes "\n" }
    ensures within { result ≤ length bytes.new }
    ensures len { length bytes.new ≡ length bytes.old }
{
    let second_at = usize::from(first.size);
    let third_at = second_at + usize::from(second.size);
    write_at(bytes, 0, &first.room);
    write_at(bytes, second_at, &second.room);
    write_at(bytes, third_at, &third.room);
    third_at + usize::from(third.size) + 1
}

impl Lines {
    /// Lines that go on after these bytes.
    pub(crate) fn after(bytes: Vec<u8>) -> Lines
        ensures { result ≡ bytes.items }
    {
        let end = bytes.len();
        Lines { bytes, end }
    }

    /// The bytes that were written.
    pub(crate) fn into_bytes(self) -> Vec<u8>
        ensures { result.items ≡ self }
    {
        let Lines { mut bytes, end } = self;
        bytes.truncate(end);
        bytes
    }

    /// Appends the first `count` of the bytes, or nothing.
    #[inline(always)]
    fn put_first(&mut self, bytes: &[u8], count: usize) -> Result<(), NoMemory>
        requires { count ≤ length bytes.now }
        ensures whole { OnOk result (self.new ≡ self.old ++ take count bytes.now) }
        ensures kept { OnErr result (self.new ≡ self.old) }
    {
        make_room(&mut self.bytes, self.end, bytes.len())?;
        let end = self.end + bytes.len();
        self.bytes[self.end..end].copy_from_slice(bytes);
        self.end += count;
        Ok(())
    }

    /// Appends the bytes, or nothing.
    pub(crate) fn put_bytes(&mut self, bytes: &[u8]) -> Result<(), NoMemory>
        ensures whole { OnOk result (self.new ≡ self.old ++ bytes.now) }
        ensures kept { OnErr result (self.new ≡ self.old) }
    {
        self.put_first(bytes, bytes.len())
    }

    /// Appends the piece, or nothing.
    #[inline(always)]
    pub(crate) fn put(&mut self, piece: &Piece) -> Result<(), NoMemory>
        ensures whole { OnOk result (self.new ≡ self.old ++ piece.now) }
        ensures kept { OnErr result (self.new ≡ self.old) }
    {
        self.put_first(&piece.room, usize::from(piece.size))
    }

    /// Appends the piece with a line end, or nothing.
    #[inline(always)]
    pub(crate) fn put_line(&mut self, piece: &Piece) -> Result<(), NoMemory>
        ensures whole { OnOk result (self.new ≡ self.old ++ piece.now ++ codes "\n") }
        ensures kept { OnErr result (self.new ≡ self.old) }
    {
        self.put_first(&piece.room, usize::from(piece.size) + 1)
    }

    /// Appends three pieces and a line end, or nothing.
    #[inline(always)]
    pub(crate) fn put_three(
        &mut self,
        first: &Piece,
        second: &Piece,
        third: &Piece,
    ) -> Result<(), NoMemory>
        ensures whole { OnOk result (self.new ≡ self.old ++ (first.now ++ second.now ++ third.now ++ codes "\n")) }
        ensures kept { OnErr result (self.new ≡ self.old) }
    {
        make_room(&mut self.bytes, self.end, REACH)?;
        let end = self.end + REACH;
        let count = write_three(&mut self.bytes[self.end..end], first, second, third);
        self.end += count;
        Ok(())
    }
}
