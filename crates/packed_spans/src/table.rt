//! The lists in which spans and splits lie.

ghost use Rattle.std.specs.Prelude.{◌≡◌, ◌<◌, ◌++◌, ℕ, List, IfOk, OnOk, OnErr, Some, slice_get, length};
ghost use Rattle.packed_spans.specs.Tables.{parts_in, IsStored, IsSplitRowOf};

use crate::span::{Span, TOKEN_PART};
use forest::{NoMemory, RuleId};
use std::alloc::AllocError;

/// How many parts lie in the row of a split itself.
pub(crate) const INLINE_PARTS: u32 = 2;

/// A span with a link to its newest split. A link is one more than the number of a split, and 0 leads nowhere.
#[derive(Clone, Copy, Drop)]
pub(crate) struct SpanRow {
    /// The symbol and the places.
    pub(crate) span: Span,
    /// The link to its newest split.
    pub(crate) newest: u32,
    /// How many splits it has, so that room for all is taken at once. Nothing else depends on it.
    pub(crate) count: usize,
}

/// A split of a span. Up to two parts are the first and the second. Of more, the first is where they begin in the
/// list of parts.
#[derive(Clone, Copy, Drop)]
pub(crate) struct SplitRow {
    /// The number of the span.
    pub(crate) span: u32,
    /// The rule whose right side is split.
    pub(crate) rule: RuleId,
    /// The link to the next older split of the span.
    pub(crate) older: u32,
    /// How many parts there are.
    pub(crate) length: u32,
    /// The first of up to two parts, or where more of them begin in the list of parts.
    pub(crate) first: u32,
    /// The second of two parts.
    pub(crate) second: u32,
}

/// Spans and splits by number, and the parts of splits with more than two.
#[derive(Drop)]
pub(crate) struct Table {
    /// A row for each span.
    pub(crate) spans: Vec<SpanRow>,
    /// A row for each split, in the order in which they were added.
    pub(crate) splits: Vec<SplitRow>,
    /// The parts of splits with more than two, those of one split together.
    pub(crate) parts: Vec<u32>,
}

impl Table {
    /// A part of the split.
    pub(crate) fn part(&self, row: &SplitRow, index: u32) -> u32
        requires stored { IsStored self.now.spans.items self.now.parts.items row.now }
        requires index { index < row.now.length }
        ensures { slice_get (parts_in self.now.parts.items row.now) index ≡ Some result }
    {
        if row.length > INLINE_PARTS {
            return self.parts[row.first as usize + index as usize];
        }
        if index == 0 {
            return row.first;
        }
        row.second
    }
}

/// Puts the parts behind the others. Gives the place of the first.
fn store(list: &mut Vec<u32>, parts: &[u32]) -> Result<u32, NoMemory>
    ensures place { IfOk result (λ place. (place ≡ length list.old.items) × (list.new.items ≡ list.old.items ++ parts.now)) }
    ensures refused { OnErr result (list.new.items ≡ list.old.items) }
{
    let Ok(place) = u32::try_from(list.len()) else {
        return Err(AllocError);
    };
    list.extend_from_slice(parts)?;
    Ok(place)
}

/// The row of a split with these parts, which go into the list where they are more than two.
pub(crate) fn row_for(
    list: &mut Vec<u32>,
    span: u32,
    rule: RuleId,
    older: u32,
    parts: &[u32],
) -> Result<SplitRow, NoMemory>
    ensures row { IfOk result (IsSplitRowOf span rule older parts.now list.new.items) }
    ensures grows { OnOk result ((more : List ℕ) × (list.new.items ≡ list.old.items ++ more)) }
    ensures refused { OnErr result (list.new.items ≡ list.old.items) }
{
    match parts {
        [first, second] => Ok(SplitRow {
            span,
            rule,
            older,
            length: 2,
            first: *first,
            second: *second,
        }),
        [first] => Ok(SplitRow {
            span,
            rule,
            older,
            length: 1,
            first: *first,
            second: TOKEN_PART,
        }),
        [] => Ok(SplitRow {
            span,
            rule,
            older,
            length: 0,
            first: TOKEN_PART,
            second: TOKEN_PART,
        }),
        _ => {
            let length = u32::try_from(parts.len()).map_err(|_| AllocError)?;
            let first = store(list, parts)?;
            Ok(SplitRow {
                span,
                rule,
                older,
                length,
                first,
                second: TOKEN_PART,
            })
        }
    }
}
