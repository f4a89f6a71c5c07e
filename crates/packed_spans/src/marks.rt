//! What a span reaches.

ghost use Rattle.std.specs.Prelude.{◌≡◌, ◌+◌, ◌<◌, ◌⊎◌, ℕ, [], Contains, OnOk, Some, slice_get, length};
ghost use Rattle.packed_spans.specs.declared.span.TheConstants.{TOKEN_PART};
ghost use Rattle.packed_spans.specs.Tables.{IsTable, IsStored};
ghost use Rattle.packed_spans.specs.Marks.{IsPartNumber, IsPartBelow, IsMarked, MarksExactly, IsSwept, MarksReached};

use crate::span::TOKEN_PART;
use crate::table::{INLINE_PARTS, SplitRow, Table};
use forest::NoMemory;
use std::alloc::Global;

/// Which spans are reached, and which of these wait until their parts are marked too.
#[derive(Drop)]
pub(crate) struct Marks {
    /// Of each span, whether it is reached.
    pub(crate) marked: Vec<bool>,
    /// The numbers of the reached spans that wait.
    pub(crate) waiting: Vec<u32>,
}

impl Marks {
    pub(crate) fn new(alloc: Global) -> Marks {
        Marks {
            marked: Vec::new(alloc),
            waiting: Vec::new(alloc),
        }
    }

    /// Marks the span. It waits if its turn in the sweep has been.
    fn mark(&mut self, number: u32, limit: u32) -> Result<(), NoMemory>
        requires { number < length self.old.marked.items }
        ensures { OnOk result (MarksExactly (λ n. n ≡ number) limit self.old.marked.items self.old.waiting.items
            self.new.marked.items self.new.waiting.items) }
    {
        if self.marked[number as usize] {
            return Ok(());
        }
        self.marked[number as usize] = true;
        if number < limit {
            return Ok(());
        }
        self.waiting.push(number)?;
        Ok(())
    }
}

/// Marks the part of a split, if it is a span.
fn mark_part(part: u32, limit: u32, marks: &mut Marks) -> Result<(), NoMemory>
    requires { (part ≡ TOKEN_PART) ⊎ (part < length marks.old.marked.items) }
    ensures { OnOk result (MarksExactly (λ n. (n ≡ part) × (n ≡ TOKEN_PART → ⊥)) limit marks.old.marked.items marks.old.waiting.items
        marks.new.marked.items marks.new.waiting.items) }
{
    if part == TOKEN_PART {
        return Ok(());
    }
    marks.mark(part, limit)?;
    Ok(())
}

/// Marks the parts of a split.
fn mark_parts(table: &Table, row: SplitRow, limit: u32, marks: &mut Marks) -> Result<(), NoMemory>
    requires stored { IsStored table.now.spans.items table.now.parts.items row }
    requires size { length marks.old.marked.items ≡ length table.now.spans.items }
    ensures { OnOk result (MarksExactly (IsPartNumber table.now.parts.items row row.length) limit marks.old.marked.items marks.old.waiting.items
        marks.new.marked.items marks.new.waiting.items) }
{
    if row.length == INLINE_PARTS {
        mark_part(row.first, limit, marks)?;
        mark_part(row.second, limit, marks)?;
        return Ok(());
    }
    for index in 0..row.length {
        mark_part(table.part(&row, index), limit, marks)?;
    }
    Ok(())
}

/// Marks the parts of all splits of a span.
fn mark_below(table: &Table, number: u32, limit: u32, marks: &mut Marks) -> Result<(), NoMemory>
    requires table { IsTable table.now.spans.items table.now.splits.items table.now.parts.items }
    requires number { number < length table.now.spans.items }
    requires size { length marks.old.marked.items ≡ length table.now.spans.items }
    ensures { OnOk result (MarksExactly (IsPartBelow table.now.splits.items table.now.parts.items number 0) limit
        marks.old.marked.items marks.old.waiting.items marks.new.marked.items marks.new.waiting.items) }
{
    let mut link = table.spans[number as usize].newest;
    while link > 0 {
        let row = table.splits[link as usize - 1];
        mark_parts(table, row, limit, marks)?;
        link = row.older;
    }
    Ok(())
}

/// Marks what the span reaches if it is marked itself, but for parts of spans whose turn in the sweep comes later.
fn settle(table: &Table, number: u32, marks: &mut Marks) -> Result<(), NoMemory>
    requires table { IsTable table.now.spans.items table.now.splits.items table.now.parts.items }
    requires number { number < length table.now.spans.items }
    requires size { length marks.old.marked.items ≡ length table.now.spans.items }
    requires nothing { marks.old.waiting.items ≡ [] }
    ensures nothing { OnOk result (marks.new.waiting.items ≡ []) }
    ensures size { OnOk result (length marks.new.marked.items ≡ length table.now.spans.items) }
    ensures swept { OnOk result ((root : ℕ) → IsSwept table.now.splits.items table.now.parts.items root (number + 1) marks.old.marked.items (λ n. ⊥)
        → IsSwept table.now.splits.items table.now.parts.items root number marks.new.marked.items (λ n. ⊥)) }
{
    if !marks.marked[number as usize] {
        return Ok(());
    }
    mark_below(table, number, number, marks)?;
    while let Some(next) = marks.waiting.pop() {
        mark_below(table, next, number, marks)?;
    }
    Ok(())
}

/// Marks exactly the spans that the root reaches. A sweep from the newest span down meets memory in order, since
/// the parts of a split are mostly older than its span.
pub(crate) fn mark_reached(table: &Table, root: u32, marks: &mut Marks) -> Result<(), NoMemory>
    requires table { IsTable table.now.spans.items table.now.splits.items table.now.parts.items }
    requires root { root < length table.now.spans.items }
    ensures size { OnOk result (length marks.new.marked.items ≡ length table.now.spans.items) }
    ensures reached { OnOk result (MarksReached table.now.splits.items table.now.parts.items root marks.new.marked.items) }
{
    marks.waiting.clear();
    marks.marked.clear();
    marks.marked.resize(table.spans.len(), false)?;
    marks.marked[root as usize] = true;
    let mut number = table.spans.len() as u32;
    while number > 0 {
        number -= 1;
        settle(table, number, marks)?;
    }
    Ok(())
}
