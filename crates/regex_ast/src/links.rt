//! Which positions begin, end and follow one another, part by part.

ghost use Rattle.std.specs.Prelude.{◌≡◌, ℕ, true, ◌+◌, ◌≤◌, ◌<◌, ◌||◌, ◌&&◌, length};
ghost use Rattle.regex_ast.specs.declared.limits.TheConstants.{POSITION_LIMIT};
ghost use Rattle.regex_ast.specs.Bytes.{has};
ghost use Rattle.regex_ast.specs.Expressions.{tree_of, class_count};
ghost use Rattle.regex_ast.specs.Links.{nullable, firsts, lasts, follows, row};

use crate::byte_set::ByteSet;
use crate::regex::Regex;

/// What a part of an expression shows to the parts around it. A set of positions is a set of
/// bytes here, since there are fewer than 256.
#[derive(Drop)]
pub(crate) struct Part {
    /// The number of the next class after the part.
    pub(crate) next: usize,
    /// Whether the part matches the empty word.
    pub(crate) nullable: bool,
    /// The positions that may begin a word of the part.
    pub(crate) first: ByteSet,
    /// The positions that may end a word of the part.
    pub(crate) last: ByteSet,
}

/// Adds to the row of each position of the part, whose classes have the numbers from `base` on,
/// the positions that follow it in the part.
pub(crate) fn link(regex: &Regex, base: usize, rows: &mut [ByteSet]) -> Part
    requires fits { base + class_count (tree_of regex.now) ≤ length rows.old }
    requires few { length rows.old ≤ POSITION_LIMIT }
    ensures next { result.next ≡ base + class_count (tree_of regex.now) }
    ensures nullable { result.nullable ≡ nullable (tree_of regex.now) }
    ensures first { (p : ℕ) → has result.first p ≡ firsts base (tree_of regex.now) p }
    ensures last { (p : ℕ) → has result.last p ≡ lasts base (tree_of regex.now) p }
    ensures rows { (q p : ℕ) → q < length rows.old → has (row rows.new q) p ≡ (has (row rows.old q) p || follows base (tree_of regex.now) q p) }
{
    match regex {
        Regex::Class(_) => Part {
            next: base + 1,
            nullable: false,
            first: ByteSet::of(base as u8),
            last: ByteSet::of(base as u8),
        },
        Regex::Then(first, second) => {
            let first = link(first, base, rows);
            let second = link(second, first.next, rows);
            connect(rows, &first.last, &second.first);
            in_turn(first, second)
        }
        Regex::Or(first, second) => {
            let first = link(first, base, rows);
            let second = link(second, first.next, rows);
            either(first, second)
        }
        Regex::Star(inner) => optional(looped(link(inner, base, rows), rows)),
        Regex::Plus(inner) => looped(link(inner, base, rows), rows),
        Regex::Maybe(inner) => optional(link(inner, base, rows)),
    }
}

/// The part, any number of times but 0: what may begin it also follows what may end it.
fn looped(part: Part, rows: &mut [ByteSet]) -> Part
    requires { length rows.old ≤ POSITION_LIMIT }
    ensures part { result ≡ part }
    ensures rows { (q p : ℕ) → q < length rows.old → has (row rows.new q) p ≡ (has (row rows.old q) p || (has part.last q && has part.first p)) }
{
    connect(rows, &part.last, &part.first);
    part
}

/// The part, or nothing.
fn optional(part: Part) -> Part
    ensures { result ≡ record part { nullable = true } }
{
    Part {
        nullable: true,
        ..part
    }
}

/// Adds each of `next` to the row of each of `before`.
fn connect(rows: &mut [ByteSet], before: &ByteSet, next: &ByteSet)
    requires { length rows.old ≤ POSITION_LIMIT }
    ensures { (q p : ℕ) → q < length rows.old → has (row rows.new q) p ≡ (has (row rows.old q) p || (has before.now q && has next.now p)) }
{
    for position in 0..rows.len() {
        if before.has(position as u8) {
            rows[position].union(next);
        }
    }
}

/// One part after another.
fn in_turn(first: Part, second: Part) -> Part
    ensures next { result.next ≡ second.next }
    ensures nullable { result.nullable ≡ (first.nullable && second.nullable) }
    ensures first { (p : ℕ) → has result.first p ≡ (has first.first p || (first.nullable && has second.first p)) }
    ensures last { (p : ℕ) → has result.last p ≡ (has second.last p || (second.nullable && has first.last p)) }
{
    let mut begins = first.first;
    if first.nullable {
        begins.union(&second.first);
    }
    let mut ends = second.last;
    if second.nullable {
        ends.union(&first.last);
    }
    Part {
        next: second.next,
        nullable: first.nullable && second.nullable,
        first: begins,
        last: ends,
    }
}

/// One of two parts.
fn either(first: Part, second: Part) -> Part
    ensures next { result.next ≡ second.next }
    ensures nullable { result.nullable ≡ (first.nullable || second.nullable) }
    ensures first { (p : ℕ) → has result.first p ≡ (has first.first p || has second.first p) }
    ensures last { (p : ℕ) → has result.last p ≡ (has first.last p || has second.last p) }
{
    let mut begins = first.first;
    begins.union(&second.first);
    let mut ends = first.last;
    ends.union(&second.last);
    Part {
        next: second.next,
        nullable: first.nullable || second.nullable,
        first: begins,
        last: ends,
    }
}
