//! The positions of an expression, as a table.

ghost use Rattle.std.specs.Prelude.{◌≡◌, ℕ, ◌+◌, ◌≤◌, ◌<◌, ◌++◌, ◌∷◌, [], length, filter, map, replicate, IfOk, OnOk, Some, slice_get};
ghost use Rattle.regex_ast.specs.declared.limits.TheConstants.{POSITION_LIMIT};
ghost use Rattle.regex_ast.specs.Bytes.{has, numbers_from, only};
ghost use Rattle.regex_ast.specs.Expressions.{tree_of, class_count, classes_of};
ghost use Rattle.regex_ast.specs.Links.{next_below};
ghost use Rattle.regex_ast.specs.Positions.{ArePositionsOf, ArePositionsOfLiteral};

use crate::byte_set::ByteSet;
use crate::links::link;
use crate::regex::{NoMemory, Regex};
use lists::ListOf;
use std::alloc::Global;
use std::marker::Model;

/// The positions of an expression (Glushkov, 1961): its classes, numbered from 0 from left to
/// right, and which of them may begin a word, end one, and follow one another.
///
/// All lists ascend.
#[derive(Debug, Drop)]
pub struct Positions {
    /// Whether the empty word is matched.
    nullable: bool,
    /// The positions that may begin a word.
    first: ListOf<u32>,
    /// The positions that may end a word.
    last: ListOf<u32>,
    /// For each position those that may come directly after it.
    follow: ListOf<ListOf<u32>>,
    /// For each position the bytes that may stand there.
    classes: ListOf<ByteSet>,
}

impl Model for Positions {
    ghost use Rattle.std.specs.Prelude.{◌≡◌, length, ◌≤◌};
    ghost use Rattle.regex_ast.specs.Positions.{Table};
    ghost use Rattle.regex_ast.specs.declared.limits.TheConstants.{POSITION_LIMIT};

    ghost Value = { Table };

    ghost view = { λ p. record { nullable = p.nullable; first = p.first; last = p.last; follow = p.follow; classes = p.classes } };

    ghost invariant = { λ p. (length p.follow ≡ length p.classes) × (length p.classes ≤ POSITION_LIMIT) };
}

impl Positions {
    /// The positions of an expression of at most 200 classes.
    pub fn of(alloc: Global, regex: &Regex) -> Result<Positions, NoMemory>
        requires { class_count (tree_of regex.now) ≤ POSITION_LIMIT }
        ensures { IfOk result (λ positions. ArePositionsOf (tree_of regex.now) positions) }
    {
        let classes = classes_of(alloc, regex)?;
        let count = classes.as_slice().len();
        let mut rows = no_links(alloc, count)?;
        let links = rows.as_mut_slice();
        let part = link(regex, 0, links);
        Ok(Positions {
            nullable: part.nullable,
            first: ascending(alloc, &part.first, count)?,
            last: ascending(alloc, &part.last, count)?,
            follow: ascending_rows(alloc, links)?,
            classes,
        })
    }

    /// The positions of a literal of 1 to 32 bytes, one for each.
    pub fn of_literal(alloc: Global, bytes: &[u8]) -> Result<Positions, NoMemory>
        requires some { 0 < length bytes.now }
        requires few { length bytes.now ≤ 32 }
        ensures { IfOk result (λ positions. ArePositionsOfLiteral bytes.now positions) }
    {
        let count = bytes.len() as u32;
        Ok(Positions {
            nullable: false,
            first: one_number(alloc, 0)?,
            last: one_number(alloc, count - 1)?,
            follow: in_line(alloc, count)?,
            classes: one_each(alloc, bytes)?,
        })
    }

    /// How many positions there are, at most 200.
    pub fn count(&self) -> u32
        ensures count { result ≡ length self.now.classes }
        ensures few { length self.now.classes ≤ POSITION_LIMIT }
    {
        self.classes.as_slice().len() as u32
    }

    /// Whether the empty word is matched.
    pub fn nullable(&self) -> bool
        ensures { result ≡ self.now.nullable }
    {
        self.nullable
    }

    /// The positions that may begin a word.
    pub fn first(&self) -> &[u32]
        ensures { result.now ≡ self.now.first }
    {
        self.first.as_slice()
    }

    /// The positions that may end a word.
    pub fn last(&self) -> &[u32]
        ensures { result.now ≡ self.now.last }
    {
        self.last.as_slice()
    }

    /// The positions that may come directly after this one.
    pub fn follow(&self, position: u32) -> &[u32]
        requires { position < length self.now.classes }
        ensures { slice_get self.now.follow position ≡ Some result.now }
    {
        self.follow.as_slice()[position as usize].as_slice()
    }

    /// The bytes that may stand at the position.
    pub fn class(&self, position: u32) -> &ByteSet
        requires { position < length self.now.classes }
        ensures { slice_get self.now.classes position ≡ Some result.now }
    {
        &self.classes.as_slice()[position as usize]
    }
}

/// The classes of the expression, from left to right.
fn classes_of(alloc: Global, regex: &Regex) -> Result<ListOf<ByteSet>, NoMemory>
    ensures classes { IfOk result (λ classes. classes ≡ classes_of (tree_of regex.now)) }
    ensures count { IfOk result (λ classes. length classes ≡ class_count (tree_of regex.now)) }
{
    let mut classes = Vec::new(alloc);
    collect(regex, &mut classes)?;
    Ok(ListOf::from_vec(classes))
}

/// Adds the classes of the expression at the end, from left to right.
fn collect(regex: &Regex, classes: &mut Vec<ByteSet>) -> Result<(), NoMemory>
    ensures { OnOk result (classes.new.items ≡ classes.old.items ++ classes_of (tree_of regex.now)) }
{
    match regex {
        Regex::Class(set) => {
            classes.push(set.copy())?;
            Ok(())
        }
        Regex::Then(first, second) | Regex::Or(first, second) => {
            collect(first, classes)?;
            collect(second, classes)
        }
        Regex::Star(inner) | Regex::Plus(inner) | Regex::Maybe(inner) => collect(inner, classes),
    }
}

/// So many empty rows.
fn no_links(alloc: Global, count: usize) -> Result<Vec<ByteSet>, NoMemory>
    ensures rows { IfOk result (λ rows. rows.items ≡ replicate count []) }
    ensures count { IfOk result (λ rows. length rows.items ≡ count) }
{
    let mut rows = Vec::with_capacity(alloc, count)?;
    for _ in 0..count {
        rows.push(ByteSet::new())?;
    }
    Ok(rows)
}

/// Each row as a list.
fn ascending_rows(alloc: Global, rows: &[ByteSet]) -> Result<ListOf<ListOf<u32>>, NoMemory>
    requires { length rows.now ≤ POSITION_LIMIT }
    ensures { IfOk result (λ lists. lists ≡ map (λ row. filter (has row) (numbers_from 0 (length rows.now))) rows.now) }
{
    let mut lists = Vec::with_capacity(alloc, rows.len())?;
    for row in rows {
        lists.push(ascending(alloc, row, rows.len())?)?;
    }
    Ok(ListOf::from_vec(lists))
}

/// The numbers below `count` that are in the set.
fn ascending(alloc: Global, set: &ByteSet, count: usize) -> Result<ListOf<u32>, NoMemory>
    requires { count ≤ POSITION_LIMIT }
    ensures { IfOk result (λ numbers. numbers ≡ filter (has set.now) (numbers_from 0 count)) }
{
    let mut numbers = Vec::new(alloc);
    for number in 0..count {
        if set.has(number as u8) {
            numbers.push(number as u32)?;
        }
    }
    Ok(ListOf::from_vec(numbers))
}

/// For each number below `count` the next one, where that is below `count` too.
fn in_line(alloc: Global, count: u32) -> Result<ListOf<ListOf<u32>>, NoMemory>
    requires { count ≤ 32 }
    ensures { IfOk result (λ rows. rows ≡ map (next_below count) (numbers_from 0 count)) }
{
    let mut rows = Vec::with_capacity(alloc, count as usize)?;
    for number in 0..count {
        rows.push(next(alloc, number, count)?)?;
    }
    Ok(ListOf::from_vec(rows))
}

/// The next number, if it is below `count`.
fn next(alloc: Global, number: u32, count: u32) -> Result<ListOf<u32>, NoMemory>
    requires { number < count }
    ensures { IfOk result (λ numbers. numbers ≡ next_below count number) }
{
    if number + 1 < count {
        one_number(alloc, number + 1)
    } else {
        Ok(ListOf::from_vec(Vec::new(alloc)))
    }
}

/// The list of this number alone.
fn one_number(alloc: Global, number: u32) -> Result<ListOf<u32>, NoMemory>
    ensures { IfOk result (λ numbers. numbers ≡ number ∷ []) }
{
    Ok(ListOf::from_vec(Vec::from_array(alloc, [number])?))
}

/// The sets of one byte each.
fn one_each(alloc: Global, bytes: &[u8]) -> Result<ListOf<ByteSet>, NoMemory>
    ensures { IfOk result (λ sets. sets ≡ map only bytes.now) }
{
    let mut sets = Vec::with_capacity(alloc, bytes.len())?;
    for byte in bytes {
        sets.push(ByteSet::of(*byte))?;
    }
    Ok(ListOf::from_vec(sets))
}
