//! Sets of spans.
ghost use Rattle.std.specs.Prelude.{◌≡◌, ◌<◌, ◌+◌, ◌*◌, ◌↔◌, ℕ, List, [], ◌∷◌, ◌++◌, IsTrue, IfOk, IfSome, IfNone, OnOk, OnErr, Contains, Some, slice_get};
ghost use Rattle.std.specs.Prelude.{length};
ghost use Rattle.plain_chart.specs.Tables.{IsTableAt, KeepsTables};
ghost use Rattle.plain_chart.specs.Span.{span};
ghost use Rattle.plain_chart.specs.declared.limits.TheConstants.{PLACES};

use crate::limits::PLACES;
use forest::SymbolId;
use std::alloc::{AllocError, Global};
use std::marker::Model;

/// A symbol with the tokens that it derives. Spans compare as the nodes of a forest do.
#[derive(Clone, Copy, PartialEq, Eq, PartialOrd, Ord)]
pub struct Span {
    /// The place between tokens where they begin, from 0 on.
    pub from: u32,
    /// The place between tokens where they end, which is `from` where there are none.
    pub to: u32,
    /// The symbol that derives them.
    pub symbol: SymbolId,
}

/// The spans of one symbol: a row of ends for each start.
#[derive(Drop)]
struct Table {
    /// The symbol of the spans.
    symbol: SymbolId,
    /// Whether each span is there: a row for each start, with as many ends as there are places.
    bits: Vec<bool>,
}

/// Spans in the order in which they came, with a table for each symbol, so that a span is found in one look.
#[derive(Drop)]
pub struct Spans {
    /// The spans in this order.
    items: Vec<Span>,
    /// A table for each symbol of a span, with the bits of these spans and no others.
    tables: Vec<Table>,
}

impl Model for Spans {
    ghost use Rattle.std.specs.Prelude.{List};
    ghost use Rattle.plain_chart.specs.declared.spans.Span.{Span};

    ghost Value = { List Span };

    ghost use Rattle.plain_chart.specs.Tables.{IsIndexed};

    ghost view = { λ s. s.items.items };

    ghost invariant = { λ s. IsIndexed s.items.items s.tables.items };
}

impl Spans {
    pub fn new(alloc: Global) -> Spans
        ensures { result ≡ [] }
    {
        Spans {
            items: Vec::new(alloc),
            tables: Vec::new(alloc),
        }
    }

    pub fn len(&self) -> usize
        ensures { result ≡ length self.now }
    {
        self.items.len()
    }

    pub fn at(&self, index: usize) -> Span
        requires { index < length self.now }
        ensures { slice_get self.now index ≡ Some result }
    {
        self.items[index]
    }

    pub fn into_vec(self) -> Vec<Span>
        ensures { result.items ≡ self }
    {
        let Spans { items, tables: _ } = self;
        items
    }

    pub fn has(&self, symbol: SymbolId, from: u32, to: u32) -> bool
        requires begins { from < PLACES }
        requires ends { to < PLACES }
        ensures { IsTrue result ↔ Contains self.now (span symbol from to) }
    {
        match table_of(self.tables.as_slice(), symbol) {
            Some(at) => self.tables[at].bits[bit_of(from, to)],
            None => false,
        }
    }

    /// Adds a span.
    pub fn insert(
        &mut self,
        alloc: Global,
        symbol: SymbolId,
        from: u32,
        to: u32,
    ) -> Result<(), AllocError>
        requires begins { from < PLACES }
        requires ends { to < PLACES }
        ensures { OnOk result (self.new ≡ self.old ++ span symbol from to ∷ []) }
    {
        let at = table_for(alloc, &mut self.tables, symbol)?;
        self.items.push(Span { from, to, symbol })?;
        let table = &mut self.tables[at];
        table.bits[bit_of(from, to)] = true;
        Ok(())
    }
}

/// Whether the symbols are one.
pub fn is_same(a: SymbolId, b: SymbolId) -> bool
    ensures { IsTrue result ↔ (a ≡ b) }
{
    a == b
}

/// Where the bit of a start and an end stands.
fn bit_of(from: u32, to: u32) -> usize
    requires begins { from < PLACES }
    requires ends { to < PLACES }
    ensures { result ≡ from * PLACES + to }
{
    from as usize * PLACES + to as usize
}

/// Where the symbol's table stands.
fn table_of(tables: &[Table], symbol: SymbolId) -> Option<usize>
    ensures found { IfSome result (IsTableAt tables.now symbol) }
    ensures none { IfNone result ((at : ℕ) → IsTableAt tables.now symbol at → ⊥) }
{
    for at in 0..tables.len() {
        if is_same(tables[at].symbol, symbol) {
            return Some(at);
        }
    }
    None
}

/// The same, with an empty table added where the symbol has none.
fn table_for(alloc: Global, tables: &mut Vec<Table>, symbol: SymbolId) -> Result<usize, AllocError>
    ensures found { IfOk result (λ at. IsTableAt tables.new.items symbol at × KeepsTables tables.old.items symbol tables.new.items) }
    ensures unchanged { OnErr result (tables.new.items ≡ tables.old.items) }
{
    if let Some(at) = table_of(tables, symbol) {
        return Ok(at);
    }
    let bits = vec![in alloc; false; PLACES * PLACES]?;
    tables.push(Table { symbol, bits })?;
    Ok(tables.len() - 1)
}
