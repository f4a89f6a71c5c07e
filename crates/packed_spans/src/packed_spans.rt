//! Packed spans.

ghost use Rattle.std.specs.Prelude.{◌≡◌, ◌<◌, [], ◌∷◌, ◌++◌, List, IfOk, OnOk, OnErr, Some, slice_get, length};
ghost use Rattle.forest.specs.declared.symbols.SymbolId.{SymbolId};
ghost use Rattle.forest.specs.declared.rules.Rule.{Rule};
ghost use Rattle.forest.specs.Forests.{IsForestOf};
ghost use Rattle.packed_spans.specs.declared.span.TheConstants.{TOKEN_PART};
ghost use Rattle.packed_spans.specs.Packed.{empty, ArePartsOf};
ghost use Rattle.packed_spans.specs.Complete.{AreDifferent, IsComplete};

use crate::marks::{Marks, mark_reached};
use crate::nodes::nodes_of;
use crate::span::{Span, TOKEN_PART};
use crate::table::{SpanRow, Table, row_for};
use forest::{Forest, NoMemory, Nodes, RuleId, SymbolId};
use std::alloc::{AllocError, Global};
use std::marker::Model;

/// Spans by number, each with its splits. A contract sees the spans in the order of their numbers, and the splits
/// in the order in which they were added.
#[derive(Drop)]
pub struct PackedSpans {
    /// All spans and splits.
    table: Table,
    /// What the last forest has marked. The lists are kept for their memory alone.
    marks: Marks,
}

impl Model for PackedSpans {
    ghost use Rattle.packed_spans.specs.Packed.{Packed};

    ghost Value = { Packed };

    ghost use Rattle.packed_spans.specs.Tables.{packed_of, IsTable};

    ghost view = { λ p. packed_of p.table.spans.items p.table.splits.items p.table.parts.items };

    ghost invariant = { λ p. IsTable p.table.spans.items p.table.splits.items p.table.parts.items };
}

impl PackedSpans {
    pub fn new(alloc: Global) -> PackedSpans
        ensures { result ≡ empty }
    {
        PackedSpans {
            table: Table {
                spans: Vec::new(alloc),
                splits: Vec::new(alloc),
                parts: Vec::new(alloc),
            },
            marks: Marks::new(alloc),
        }
    }

    /// Forgets all spans and keeps the room.
    pub fn clear(&mut self)
        ensures { self.new ≡ empty }
    {
        self.table.spans.clear();
        self.table.splits.clear();
        self.table.parts.clear();
    }

    pub fn span_count(&self) -> usize
        ensures { result ≡ length self.now.spans }
    {
        self.table.spans.len()
    }

    pub fn split_count(&self) -> usize
        ensures { result ≡ length self.now.splits }
    {
        self.table.splits.len()
    }

    pub fn span(&self, number: u32) -> Span
        requires { number < length self.now.spans }
        ensures { slice_get self.now.spans number ≡ Some result }
    {
        self.table.spans[number as usize].span
    }

    /// Adds a span with no splits. Gives its number.
    pub fn add_span(&mut self, symbol: SymbolId, from: u32, to: u32) -> Result<u32, NoMemory>
        ensures number { IfOk result (λ number. number ≡ length self.old.spans) }
        ensures below { IfOk result (λ number. number < TOKEN_PART) }
        ensures spans { OnOk result (self.new.spans ≡ self.old.spans ++ record { symbol = symbol; from = from; to = to } ∷ []) }
        ensures splits { OnOk result (self.new.splits ≡ self.old.splits) }
        ensures refused { OnErr result (self.new ≡ self.old) }
    {
        let number = self.table.spans.len();
        if number >= TOKEN_PART as usize {
            return Err(AllocError);
        }
        self.table.spans.push(SpanRow {
            span: Span { symbol, from, to },
            newest: 0,
            count: 0,
        })?;
        Ok(number as u32)
    }

    /// Adds a split to the span with this number: a rule, and the parts of its right side.
    pub fn add_split(&mut self, span: u32, rule: RuleId, parts: &[u32]) -> Result<(), NoMemory>
        requires span { span < length self.old.spans }
        requires parts { ArePartsOf self.old.spans parts.now }
        ensures spans { OnOk result (self.new.spans ≡ self.old.spans) }
        ensures splits { OnOk result (self.new.splits ≡ self.old.splits ++ record { span = span; rule = rule; parts = parts.now } ∷ []) }
        ensures refused { OnErr result (self.new ≡ self.old) }
    {
        let count = self.table.splits.len();
        if count >= u32::MAX as usize {
            return Err(AllocError);
        }
        let link = count as u32 + 1;
        let older = self.table.spans[span as usize].newest;
        let row = row_for(&mut self.table.parts, span, rule, older, parts)?;
        self.table.splits.push(row)?;
        let owner = &mut self.table.spans[span as usize];
        owner.newest = link;
        owner.count = owner.count.wrapping_add(1);
        Ok(())
    }

    /// The forest of what the root reaches.
    pub fn forest(&mut self, alloc: Global, root: u32) -> Result<Forest, NoMemory>
        requires root { root < length self.old.spans }
        requires different { AreDifferent self.old.spans }
        ensures forest { (rules : List Rule) (tokens : List SymbolId) → IsComplete rules tokens self.old root → IfOk result (IsForestOf rules tokens) }
        ensures unchanged { self.new ≡ self.old }
    {
        mark_reached(&self.table, root, &mut self.marks)?;
        let nodes = nodes_of(alloc, &self.table, &self.marks)?;
        Ok(Forest {
            nodes: Nodes::from_vec(nodes),
        })
    }
}
