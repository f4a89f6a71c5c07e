//! States that are reached byte by byte, and what they tell.

ghost use Rattle.std.specs.Prelude.{◌≡◌, ◌<◌, IfOk, IfSome, Contains};
ghost use Rattle.isg_states.specs.Expansion.{Range, AreMarks};

use crate::answers::number_of;
use crate::telling::{tell, tell_accepted, tell_marks, tell_range};
use edit_log::Grammar;
use indexmap::IndexSet;
use isg_states::{Mark, ScanExpansion, ScanKey, accepts, expand_scan};
use std::alloc::{AllocError, Global};
use std::marker::Brand;
use std::sync::ledger::{Blank, Ledger};
use steps::Steps;

/// The expansion of the state, with steps that are counted nowhere.
fn expanded<L: Ledger>(
    alloc: Global,
    grammar: &Grammar,
    key: &ScanKey,
    blank: Blank,
) -> Result<ScanExpansion, AllocError>
    requires name { blank.name ≡ L.name }
    requires parts { blank.parts ≡ L.parts }
    requires some { 0 < L.parts }
    requires marks { AreMarks grammar.now.grammar key.now }
    ensures { IfOk result (λ found. (range : Range) → Contains found.ranges range → AreMarks grammar.now.grammar range.2) }
{
    let mut steps = Steps::<L>::new(blank);
    let expansion = expand_scan(alloc, grammar, key, &mut steps)?;
    Ok(expansion)
}

/// Where the bytes lead from the state.
fn expansion_of(
    alloc: Global,
    grammar: &Grammar,
    key: &ScanKey,
) -> Result<ScanExpansion, AllocError>
    requires { AreMarks grammar.now.grammar key.now }
    ensures { IfOk result (λ found. (range : Range) → Contains found.ranges range → AreMarks grammar.now.grammar range.2) }
{
    expanded::<Brand>(alloc, grammar, key, Blank::new(1))
}

/// The key of the range that has the byte.
fn target(ranges: &[(u8, u8, ScanKey)], byte: u8) -> Result<Option<ScanKey>, AllocError>
    ensures { IfOk result (λ found. IfSome found (λ key. (range : Range) × Contains ranges.now range × (key ≡ range.2))) }
{
    for range in ranges {
        if range.0 <= byte && byte <= range.1 {
            let key = range.2.clone()?;
            return Ok(Some(key));
        }
    }
    Ok(None)
}

/// The state to which the byte leads.
fn next(
    alloc: Global,
    grammar: &Grammar,
    key: &ScanKey,
    byte: u8,
) -> Result<Option<ScanKey>, AllocError>
    requires { AreMarks grammar.now.grammar key.now }
    ensures { IfOk result (λ found. IfSome found (λ next. AreMarks grammar.now.grammar next)) }
{
    let expansion = expansion_of(alloc, grammar, key)?;
    let found = target(expansion.ranges.as_slice(), byte)?;
    Ok(found)
}

/// The state after the piece.
fn reached(alloc: Global, grammar: &Grammar, piece: &[u8]) -> Result<Option<ScanKey>, AllocError>
    ensures { IfOk result (λ found. IfSome found (λ key. AreMarks grammar.now.grammar key)) }
{
    let mut key = ScanKey::Start;
    for byte in piece {
        match next(alloc, grammar, &key, *byte)? {
            Some(next) => key = next,
            None => return Ok(None),
        }
    }
    Ok(Some(key))
}

/// The numbers of the marks.
fn numbers(alloc: Global, marks: &[Mark]) -> Result<Vec<u64>, AllocError> {
    let mut numbers = Vec::new(alloc);
    for mark in marks {
        numbers.push(number_of(*mark))?;
    }
    Ok(numbers)
}

/// The numbers of the state's marks.
fn numbers_of(alloc: Global, key: &ScanKey) -> Result<Vec<u64>, AllocError> {
    match key {
        ScanKey::Start => Ok(Vec::new(alloc)),
        ScanKey::Set(marks) => numbers(alloc, marks.items()),
    }
}

/// Adds the state's marks, and the definition that it accepts.
fn tell_state(
    alloc: Global,
    told: &mut String,
    grammar: &Grammar,
    key: &ScanKey,
) -> Result<(), AllocError>
    requires { AreMarks grammar.now.grammar key.now }
{
    tell_marks(alloc, told, &numbers_of(alloc, key)?)?;
    tell_accepted(alloc, told, accepts(grammar, key))
}

/// The marks of the state after the piece, and the definition that it accepts.
pub(crate) fn told_state(
    alloc: Global,
    grammar: &Grammar,
    piece: &[u8],
) -> Result<String, AllocError> {
    let mut told = String::new(alloc);
    if let Some(key) = reached(alloc, grammar, piece)? {
        tell_state(alloc, &mut told, grammar, &key)?;
    }
    Ok(told)
}

/// Adds the ranges, each with its ends and its marks.
fn tell_ranges(
    alloc: Global,
    told: &mut String,
    ranges: &[(u8, u8, ScanKey)],
) -> Result<(), AllocError> {
    for range in ranges {
        let numbers = numbers_of(alloc, &range.2)?;
        tell_range(alloc, told, range.0, range.1, &numbers)?;
    }
    Ok(())
}

/// Adds where the bytes lead from the state.
fn tell_expansion(
    alloc: Global,
    told: &mut String,
    grammar: &Grammar,
    key: &ScanKey,
) -> Result<(), AllocError>
    requires { AreMarks grammar.now.grammar key.now }
{
    let expansion = expansion_of(alloc, grammar, key)?;
    tell_ranges(alloc, told, expansion.ranges.as_slice())
}

/// Where the bytes lead from the state after the piece.
pub(crate) fn told_ranges(
    alloc: Global,
    grammar: &Grammar,
    piece: &[u8],
) -> Result<String, AllocError> {
    let mut told = String::new(alloc);
    if let Some(key) = reached(alloc, grammar, piece)? {
        tell_expansion(alloc, &mut told, grammar, &key)?;
    }
    Ok(told)
}

/// Adds the place that the state has in the set, or gets there.
fn tell_place(
    alloc: Global,
    told: &mut String,
    set: &mut IndexSet<ScanKey>,
    key: ScanKey,
) -> Result<(), AllocError> {
    let (place, _) = set.insert_full(key)?;
    tell(alloc, told, " ", place as u64)
}

/// The places in a set of the states after the pieces, where the start has place 0.
pub(crate) fn told_places(
    alloc: Global,
    grammar: &Grammar,
    pieces: &str,
) -> Result<String, AllocError> {
    let mut told = String::new(alloc);
    let mut set = IndexSet::new(alloc);
    set.insert(ScanKey::Start)?;
    for piece in pieces.split(' ') {
        if let Some(key) = reached(alloc, grammar, piece.as_bytes())? {
            tell_place(alloc, &mut told, &mut set, key)?;
        }
    }
    Ok(told)
}
