//! The symbols by their numbers, with a row for each of what is kept of it.

ghost use Rattle.std.specs.Prelude.{◌≡◌, ◌<◌, ◌≤◌, ◌+◌, ◌++◌, ◌∷◌, [], ℕ, length, map, codes, position, slice_get, option_map, None, Some, IfOk, IfSome, OnOk};
ghost use Rattle.std.specs.Prelude.{Vec as AVec};
ghost use Rattle.std.specs.declared.alloc.Global.{Global as AGlobal};
ghost use Rattle.forest.specs.declared.rules.RuleId.{RuleId as ARuleId};
ghost use Rattle.forest.specs.Distinct.{IsDistinct};
ghost use Rattle.grammar_text.specs.Sameness.{spelling_eq};
ghost use Rattle.grammar_text.specs.declared.symbol.Symbol.TheVariants as symbol;
ghost use Rattle.indexmap.specs.IndexSet.{spare};
ghost use Rattle.edit_log.specs.Kept.{live_literal};
ghost use Rattle.edit_log.specs.Lists.{under};
ghost use Rattle.edit_log.specs.Replicas.{room_of, symbols_in};
ghost use Rattle.edit_log.specs.Rows.{lefts_in, uses_in, literals_in, rooms_in};

use crate::fresh_symbols::FreshSymbol;
use forest::{RuleId, SymbolId};
use grammar_text::{Name, Symbol};
use indexmap::IndexSet;
use regex_ast::Positions;
use std::alloc::{AllocError, Global};

/// What is kept of a symbol.
#[derive(Drop)]
pub(crate) struct Row {
    /// The numbers of the live rules whose left side it is.
    pub(crate) rules: Vec<RuleId>,
    /// How often it stands on the right sides of live rules.
    pub(crate) uses: u32,
    /// Those of a literal.
    pub(crate) positions: Option<Positions>,
}

/// All symbols that ever appeared. A symbol's number is its place, and the place of its row.
#[derive(Drop)]
pub(crate) struct SymbolTable {
    /// The symbols in the order of their numbers. That of `START` is 0.
    pub(crate) symbols: IndexSet<Symbol>,
    /// What is kept of each symbol, in the same order.
    pub(crate) rows: Vec<Row>,
}

/// The positions of a literal that a live rule uses.
pub(crate) fn live_literal(rows: &[Row], symbol: SymbolId) -> Option<&Positions>
    ensures { option_map (λ p. p.now) result ≡ live_literal (uses_in rows.now) (literals_in rows.now) symbol.0 }
{
    let place = symbol.0 as usize;
    if place >= rows.len() {
        return None;
    }
    let row = &rows[place];
    if row.uses == 0 {
        return None;
    }
    row.positions.as_ref()
}

/// Puts the symbol last.
fn push_symbol(symbols: &mut IndexSet<Symbol>, symbol: Symbol)
    requires new { position (spelling_eq symbol) symbols.old.keys ≡ None }
    requires room { 0 < spare symbols.old }
    ensures keys { symbols.new.keys ≡ symbols.old.keys ++ symbol ∷ [] }
    ensures room { spare symbols.old ≤ spare symbols.new + 1 }
{
    match symbols.insert(symbol) {
        Ok(_) => {}
        Err(_) => unreachable!(),
    }
}

impl SymbolTable {
    /// The table whose one symbol is `START`.
    pub(crate) fn with_start(alloc: Global) -> Result<SymbolTable, AllocError>
        ensures symbols { IfOk result (λ table. table.symbols.keys ≡ symbol.Named (codes "START") ∷ []) }
        ensures rows { IfOk result (λ table. (rules : AVec ARuleId AGlobal) × (rules.items ≡ [])
            × (table.rows.items ≡ (record { rules = rules; uses = 0; positions = None }) ∷ [])) }
    {
        let mut symbols = IndexSet::new(alloc);
        symbols.insert(Symbol::Named(Name::from_bytes(alloc, b"START")?))?;
        let mut rows = Vec::new(alloc);
        rows.push(Row {
            rules: Vec::new(alloc),
            uses: 0,
            positions: None,
        })?;
        Ok(SymbolTable { symbols, rows })
    }

    /// Takes memory for so many more symbols.
    pub(crate) fn reserve(&mut self, count: usize) -> Result<(), AllocError>
        ensures symbols { self.new.symbols.keys ≡ self.old.symbols.keys }
        ensures rows { self.new.rows.items ≡ self.old.rows.items }
        ensures symbols_grow { spare self.old.symbols ≤ spare self.new.symbols }
        ensures rows_grow { room_of self.old.rows ≤ room_of self.new.rows }
        ensures symbols_room { OnOk result (count ≤ spare self.new.symbols) }
        ensures rows_room { OnOk result (count ≤ room_of self.new.rows) }
    {
        self.symbols.reserve(count)?;
        self.rows.reserve(count)
    }

    /// Takes memory for one more rule with this left side, where that is a symbol already.
    pub(crate) fn reserve_rule(&mut self, left: SymbolId) -> Result<(), AllocError>
        ensures symbols { self.new.symbols ≡ self.old.symbols }
        ensures rows { room_of self.new.rows ≡ room_of self.old.rows }
        ensures len { length self.new.rows.items ≡ length self.old.rows.items }
        ensures lefts { (place : ℕ) → under (lefts_in self.new.rows.items) place ≡ under (lefts_in self.old.rows.items) place }
        ensures uses { uses_in self.new.rows.items ≡ uses_in self.old.rows.items }
        ensures literals { literals_in self.new.rows.items ≡ literals_in self.old.rows.items }
        ensures grows { (place count : ℕ) → slice_get (rooms_in self.old.rows.items) place ≡ Some count
            → (more : ℕ) × (slice_get (rooms_in self.new.rows.items) place ≡ Some more) × (count ≤ more) }
        ensures room { OnOk result (IfSome (slice_get (rooms_in self.new.rows.items) left.0) (λ count. 1 ≤ count)) }
    {
        let place = left.0 as usize;
        if place < self.rows.len() {
            self.rows[place].rules.reserve(1)?;
        }
        Ok(())
    }

    /// Adds the symbols, which no rule uses yet.
    pub(crate) fn add_symbols(&mut self, fresh: Vec<FreshSymbol>)
        requires new { IsDistinct (self.old.symbols.keys ++ symbols_in fresh.items) }
        requires symbols { length fresh.items ≤ spare self.old.symbols }
        requires rows { length fresh.items ≤ room_of self.old.rows }
        ensures symbols { self.new.symbols.keys ≡ self.old.symbols.keys ++ symbols_in fresh.items }
        ensures lefts { lefts_in self.new.rows.items ≡ lefts_in self.old.rows.items ++ map (λ one. one.rules) fresh.items }
        ensures uses { uses_in self.new.rows.items ≡ uses_in self.old.rows.items ++ map (λ one. 0) fresh.items }
        ensures literals { literals_in self.new.rows.items ≡ literals_in self.old.rows.items ++ map (λ one. one.positions) fresh.items }
    {
        for one in fresh {
            let FreshSymbol {
                symbol,
                positions,
                rules,
            } = one;
            push_symbol(&mut self.symbols, symbol);
            self.rows.push_reserved(Row {
                rules,
                uses: 0,
                positions,
            });
        }
    }
}
