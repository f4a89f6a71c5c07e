//! Sets of symbols that keep the order in which these were met.

ghost use Rattle.std.specs.Prelude.{◌≡◌, ◌↔◌, ◌<◌, [], ℕ, Contains, IfOk, OnOk, length, IsTrue, Some, slice_get};
ghost use Rattle.std.specs.List.{position_or_len};
ghost use Rattle.indexmap.specs.IndexSet.{insert_key};
ghost use Rattle.forest.specs.Equality.{symbol_eq};
ghost use Rattle.item_sets.specs.Traces.{trace_in, LeavesTraces};

use crate::NoMemory;
use forest::SymbolId;
use std::alloc::{AllocError, Global};
use std::marker::Model;

/// How many traces there are at most.
const TRACES: usize = 4096;

/// The trace of symbols none of which was met.
const UNMET: u32 = 0;

/// Symbols, each once. A contract sees the list of them. Where a symbol stands is told by a trace that it left,
/// and only where two left the same one are the symbols looked through.
#[derive(Drop)]
pub(crate) struct SymbolSet {
    /// The symbols in the order in which they were met.
    met: Vec<SymbolId>,
    /// By what is left of a symbol's number above `TRACES`: one more than the place of a symbol that was met.
    traces: Vec<u32>,
}

impl Model for SymbolSet {
    ghost use Rattle.std.specs.Prelude.{List};
    ghost use Rattle.forest.specs.declared.symbols.SymbolId.{SymbolId};
    ghost use Rattle.item_sets.specs.Traces.{LeavesTraces};

    ghost Value = { List SymbolId };

    ghost view = { λ set. set.met.items };

    ghost invariant = { λ set. LeavesTraces set.met.items set.traces.items };
}

/// The trace that stands there. Behind the end no symbol left one.
fn trace_in(traces: &[u32], at: usize) -> u32
    ensures { result ≡ trace_in traces.now at }
{
    match traces.get(at) {
        Some(trace) => *trace,
        None => UNMET,
    }
}

/// Whether the symbol stands at the place.
fn stands_at(met: &[SymbolId], place: usize, symbol: SymbolId) -> bool
    ensures { IsTrue result ↔ (slice_get met.now place ≡ Some symbol) }
{
    match met.get(place) {
        Some(other) => *other == symbol,
        None => false,
    }
}

/// The place of the symbol among these, or their number.
fn search(met: &[SymbolId], symbol: SymbolId) -> usize
    ensures { result ≡ position_or_len (symbol_eq symbol) met.now }
{
    for place in 0..met.len() {
        if stands_at(met, place, symbol) {
            return place;
        }
    }
    met.len()
}

/// Makes room for a trace there.
fn make_room(traces: &mut Vec<u32>, at: usize) -> Result<(), NoMemory>
    requires { at < 4096 }
    ensures room { OnOk result (at < length traces.new.items) }
    ensures keeps { (k : ℕ) → trace_in traces.new.items k ≡ trace_in traces.old.items k }
{
    if traces.len() <= at {
        traces.resize(at + 64, UNMET)?;
    }
    Ok(())
}

impl SymbolSet {
    pub(crate) fn new(alloc: Global) -> SymbolSet
        ensures { result ≡ [] }
    {
        SymbolSet {
            met: Vec::new(alloc),
            traces: Vec::new(alloc),
        }
    }

    /// The symbols in the order in which they were met.
    pub(crate) fn as_slice(&self) -> &[SymbolId]
        ensures { result.now ≡ self.now }
    {
        self.met.as_slice()
    }

    /// One more symbol, which was not met. Gives its place.
    fn meet(&mut self, symbol: SymbolId) -> Result<usize, NoMemory>
        requires { Contains self.old symbol → ⊥ }
        ensures place { IfOk result (λ place. place ≡ position_or_len (symbol_eq symbol) self.old) }
        ensures symbols { OnOk result (self.new ≡ insert_key symbol_eq self.old symbol) }
    {
        let place = self.met.len();
        let Ok(trace) = u32::try_from(place + 1) else {
            return Err(AllocError);
        };
        let at = symbol.0 as usize % TRACES;
        make_room(&mut self.traces, at)?;
        self.met.push(symbol)?;
        self.traces[at] = trace;
        Ok(place)
    }

    /// The place of the symbol, which goes behind the others if it was not met.
    pub(crate) fn place_of(&mut self, symbol: SymbolId) -> Result<usize, NoMemory>
        ensures place { IfOk result (λ place. place ≡ position_or_len (symbol_eq symbol) self.old) }
        ensures symbols { OnOk result (self.new ≡ insert_key symbol_eq self.old symbol) }
    {
        let trace = trace_in(self.traces.as_slice(), symbol.0 as usize % TRACES);
        if trace == UNMET {
            return self.meet(symbol);
        }
        let guess = trace as usize - 1;
        if stands_at(self.met.as_slice(), guess, symbol) {
            return Ok(guess);
        }
        let place = search(self.met.as_slice(), symbol);
        if place < self.met.len() {
            return Ok(place);
        }
        self.meet(symbol)
    }
}
