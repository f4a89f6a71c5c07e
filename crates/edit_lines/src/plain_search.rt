//! A plain, slow search: each live definition by itself goes over a piece of a text with lists of its positions.
//!
//! A contract of a look-up says the whole answer, and a proof over it is long. Behind `live_of` and `positions_of`,
//! which have no contract, the answers are plain values.

use edit_log::{DefId, Grammar};
use regex_ast::Positions;
use std::alloc::{AllocError, Global};

fn live_of(grammar: &Grammar) -> &[DefId] {
    grammar.live_defs()
}

fn positions_of(grammar: &Grammar, definition: DefId) -> Option<&Positions> {
    grammar.positions(definition)
}

/// Whether the class of the position has the byte.
fn takes(positions: &Positions, position: u32, byte: u8) -> bool {
    if position >= positions.count() {
        return false;
    }
    positions.class(position).has(byte)
}

/// Those of the positions whose class has the byte.
fn with_byte(
    alloc: Global,
    positions: &Positions,
    these: &[u32],
    byte: u8,
) -> Result<Vec<u32>, AllocError> {
    let mut found = Vec::new(alloc);
    for position in these {
        if takes(positions, *position, byte) {
            found.push(*position)?;
        }
    }
    Ok(found)
}

fn add_once(found: &mut Vec<u32>, position: u32) -> Result<(), AllocError> {
    if found.contains(&position) {
        return Ok(());
    }
    found.push(position)?;
    Ok(())
}

/// Adds the positions that may come directly after this one.
fn add_next(positions: &Positions, position: u32, found: &mut Vec<u32>) -> Result<(), AllocError> {
    if position >= positions.count() {
        return Ok(());
    }
    for next in positions.follow(position) {
        add_once(found, *next)?;
    }
    Ok(())
}

/// The positions that may come directly after one of these.
fn behind(alloc: Global, positions: &Positions, these: &[u32]) -> Result<Vec<u32>, AllocError> {
    let mut found = Vec::new(alloc);
    for position in these {
        add_next(positions, *position, &mut found)?;
    }
    Ok(found)
}

/// The positions that are reached by the piece, and none by an empty one.
fn reached(alloc: Global, positions: &Positions, piece: &[u8]) -> Result<Vec<u32>, AllocError> {
    let mut begun = positions.first().to_vec(alloc)?;
    let mut reached = Vec::new(alloc);
    for byte in piece {
        reached = with_byte(alloc, positions, &begun, *byte)?;
        begun = behind(alloc, positions, &reached)?;
    }
    Ok(reached)
}

/// The positions of the definition, where it is live, that are reached by the piece.
pub fn reached_in(
    alloc: Global,
    grammar: &Grammar,
    definition: DefId,
    piece: &[u8],
) -> Result<Vec<u32>, AllocError> {
    match positions_of(grammar, definition) {
        Some(positions) => reached(alloc, positions, piece),
        None => Ok(Vec::new(alloc)),
    }
}

fn has_last(positions: &Positions, these: &[u32]) -> bool {
    for position in these {
        if positions.last().contains(position) {
            return true;
        }
    }
    false
}

/// Whether the definition is live and matches the piece, which is not empty.
fn matches(
    alloc: Global,
    grammar: &Grammar,
    definition: DefId,
    piece: &[u8],
) -> Result<bool, AllocError> {
    let reached = reached_in(alloc, grammar, definition, piece)?;
    match positions_of(grammar, definition) {
        Some(positions) => Ok(has_last(positions, &reached)),
        None => Ok(false),
    }
}

/// The first of the live definitions that match the piece, which is not empty.
pub fn winner(alloc: Global, grammar: &Grammar, piece: &[u8]) -> Result<Option<DefId>, AllocError> {
    for definition in live_of(grammar) {
        if matches(alloc, grammar, *definition, piece)? {
            return Ok(Some(*definition));
        }
    }
    Ok(None)
}
