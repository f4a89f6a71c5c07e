//! A plain, slow search: each live definition by itself goes over the piece with lists of its positions. It shows
//! on worked texts which positions stand after a piece, which definition wins it, and where bytes lead.

use crate::answers::{live_of, number_of};
use crate::telling::{tell_accepted, tell_marks, tell_range};
use edit_lines::{reached_in, winner};
use edit_log::{DefId, Grammar};
use isg_states::Mark;
use std::alloc::{AllocError, Global};

/// Adds the numbers of the marks of the definition.
fn add_numbers(found: &mut Vec<u64>, def: DefId, these: &[u32]) -> Result<(), AllocError> {
    for index in these {
        found.push(number_of(Mark { def, index: *index }))?;
    }
    Ok(())
}

/// The numbers of the marks after the piece, ascending.
fn marks(alloc: Global, grammar: &Grammar, piece: &[u8]) -> Result<Vec<u64>, AllocError> {
    let mut numbers = Vec::new(alloc);
    for definition in live_of(grammar) {
        let reached = reached_in(alloc, grammar, *definition, piece)?;
        add_numbers(&mut numbers, *definition, &reached)?;
    }
    numbers.sort()?;
    Ok(numbers)
}

/// The marks after the piece, and the definition that wins it.
pub(crate) fn told_state(
    alloc: Global,
    grammar: &Grammar,
    piece: &[u8],
) -> Result<String, AllocError> {
    let mut told = String::new(alloc);
    tell_marks(alloc, &mut told, &marks(alloc, grammar, piece)?)?;
    tell_accepted(alloc, &mut told, winner(alloc, grammar, piece)?)?;
    Ok(told)
}

/// The numbers of the marks after the piece and the byte.
fn marks_with(
    alloc: Global,
    grammar: &Grammar,
    piece: &[u8],
    byte: u8,
) -> Result<Vec<u64>, AllocError> {
    let mut longer = piece.to_vec(alloc)?;
    longer.push(byte)?;
    marks(alloc, grammar, &longer)
}

/// Adds the range, where its bytes lead anywhere.
fn tell_some(
    alloc: Global,
    told: &mut String,
    low: u8,
    high: u8,
    numbers: &[u64],
) -> Result<(), AllocError> {
    if numbers.is_empty() {
        return Ok(());
    }
    tell_range(alloc, told, low, high, numbers)
}

/// Where each byte leads after the piece: neighbours that lead to the same marks are one range.
pub(crate) fn told_ranges(
    alloc: Global,
    grammar: &Grammar,
    piece: &[u8],
) -> Result<String, AllocError> {
    let mut told = String::new(alloc);
    let mut low = 0;
    let mut numbers = marks_with(alloc, grammar, piece, 0)?;
    for high in 0..255 {
        let next = marks_with(alloc, grammar, piece, high + 1)?;
        if next != numbers {
            tell_some(alloc, &mut told, low, high, &numbers)?;
            low = high + 1;
            numbers = next;
        }
    }
    tell_some(alloc, &mut told, low, 255, &numbers)?;
    Ok(told)
}
