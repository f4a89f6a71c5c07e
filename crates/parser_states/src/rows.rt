//! What is kept of one state, as parts of lists that all states share.

ghost use Rattle.std.specs.Prelude.{◌≡◌, ◌≤◌, ◌+◌, ◌<◌, ◌^◌, length, IfOk};
ghost use Rattle.edit_log.specs.Facts.{IsWellFormed};
ghost use Rattle.parser_states.specs.Rows.{IsNewRowOf};

use crate::reduction::{Reduction, add_reductions};
use crate::searches::has_nonterminal;
use edit_log::Grammar;
use forest::{RuleId, SymbolId};
use live_graph::NoMemory;
use std::alloc::AllocError;

/// The places of a list from the first on and before another.
#[derive(Clone, Copy)]
pub(crate) struct Part {
    /// The first place.
    pub(crate) first: u32,
    /// The place behind the last one.
    pub(crate) past: u32,
}

/// What is kept of one state.
#[derive(Clone, Copy)]
pub(crate) struct Row {
    /// The part of the lists of moves.
    pub(crate) moves: Part,
    /// The part of the reductions that has those by rules with empty right sides.
    pub(crate) empties: Part,
    /// The part of the reductions that has the others.
    pub(crate) reductions: Part,
    /// Whether some move is on the left side of a rule.
    pub(crate) opens: bool,
}

/// The part from one place on and before another. Nobody has the memory for a list of more places.
pub(crate) fn part_between(first: usize, past: usize) -> Result<Part, NoMemory>
    ensures { IfOk result (λ part. (part.first ≡ first) × (part.past ≡ past)) }
{
    let Ok(first) = u32::try_from(first) else {
        return Err(AllocError);
    };
    let Ok(past) = u32::try_from(past) else {
        return Err(AllocError);
    };
    Ok(Part { first, past })
}

/// The number, where it and one more have 32 bits. Nobody has the memory for more states.
pub(crate) fn number_of(place: usize) -> Result<u32, NoMemory>
    ensures { IfOk result (λ number. (number ≡ place) × (number + 1 < 2 ^ 32)) }
{
    let Ok(number) = u32::try_from(place) else {
        return Err(AllocError);
    };
    if number == u32::MAX {
        return Err(AllocError);
    }
    Ok(number)
}

/// The row of a state with these moves, on these symbols, and these finished rules. Its reductions are appended.
pub(crate) fn row_of(
    grammar: &Grammar,
    moves: Part,
    symbols: &[SymbolId],
    finished: &[RuleId],
    reductions: &mut Vec<Reduction>,
) -> Result<Row, NoMemory>
    requires { IsWellFormed grammar.now.grammar }
    ensures row { IfOk result (IsNewRowOf grammar.now.grammar.rules moves symbols.now finished.now reductions.old.items reductions.new.items) }
    ensures grows { length reductions.old.items ≤ length reductions.new.items }
{
    let first = reductions.len();
    add_reductions(reductions, grammar, finished, true)?;
    let middle = reductions.len();
    add_reductions(reductions, grammar, finished, false)?;
    let empties = part_between(first, middle)?;
    let others = part_between(middle, reductions.len())?;
    Ok(Row {
        moves,
        empties,
        reductions: others,
        opens: has_nonterminal(grammar, symbols),
    })
}
