//! The states of a parse, as a parser asks them.

ghost use Rattle.std.specs.Prelude.{◌≡◌, ◌≤◌, ◌<◌, ◌↔◌, [], ◌∷◌, length, IfOk, OnOk, IsTrue, Contains};
ghost use Rattle.item_sets.specs.Prefixes.{start_kernel};
ghost use Rattle.item_sets.specs.Expansions.{HasMove};
ghost use Rattle.parser_states.specs.Asked.{StandsButKernels, AsksNew};
ghost use Rattle.parser_states.specs.Reductions.{ListsReductions, Opens};
ghost use Rattle.forest.specs.Numbers.{KeepsNumbers};
ghost use Rattle.parser_states.specs.Leads.{LeadsFrom};
ghost use Rattle.parser_states.specs.Expanded.{AreExpandedIn, OfState};

use crate::reduction::Reduction;
use crate::table::Table;
use forest::SymbolId;
use item_sets::Kernel;
use live_graph::{Graph, NoMemory};
use std::alloc::Global;
use std::marker::Model;
use std::sync::ledger::Ledger;
use steps::Steps;

/// The states that a parse has met, by number, the start first. A contract sees their kernels, and what is kept of
/// their expansions.
///
/// What a method says of a state holds by whichever rules the states are expanded.
#[derive(Drop)]
pub struct States {
    /// The states in lists.
    table: Table,
}

impl Model for States {
    ghost use Rattle.parser_states.specs.Known.{Known, known};
    ghost use Rattle.parser_states.specs.Rows.{IsShaped};

    ghost Value = { Known };

    ghost view = { λ s. known s.table };

    ghost invariant = { λ s. IsShaped (known s.table) };
}

impl States {
    /// No states.
    pub fn new(alloc: Global) -> States
        ensures { result.kernels ≡ [] }
    {
        States {
            table: Table::new(alloc),
        }
    }

    /// Forgets all states, and keeps their memory for others.
    pub fn clear(&mut self)
        ensures { self.new.kernels ≡ [] }
    {
        self.table.clear();
    }

    /// How many states there are. Their numbers are those below.
    pub fn count(&self) -> usize
        ensures { result ≡ length self.now.kernels }
    {
        self.table.keys.len()
    }

    /// Begins anew with the state that a parse begins in, which is asked of the graph and gets the number 0.
    pub fn start<G: Graph, L: Ledger>(
        &mut self,
        graph: &mut G,
        steps: &mut Steps<L>,
    ) -> Result<(), NoMemory>
        ensures start { OnOk result (self.new.kernels ≡ start_kernel ∷ []) }
        ensures expanded { OnOk result (AreExpandedIn (G.means graph.new).grammar.rules self.new) }
        ensures asks { OnOk result (AsksNew [] self.new.kernels (G.means graph.old) (G.means graph.new) steps.old steps.new) }
        ensures stands { StandsButKernels (G.means graph.old) (G.means graph.new) }
        ensures never_back { steps.old ≤ steps.new }
    {
        self.table.clear();
        let kernel = Kernel::start(*self.table.rows.allocator());
        self.table.add(graph, kernel, steps)?;
        Ok(())
    }

    /// The number of the state behind the state's move on the symbol, or none where it has no such move. A state that
    /// is new is asked of the graph and gets the next number.
    pub fn next<G: Graph, L: Ledger>(
        &mut self,
        graph: &mut G,
        state: u32,
        symbol: SymbolId,
        steps: &mut Steps<L>,
    ) -> Result<Option<u32>, NoMemory>
        requires expanded { AreExpandedIn (G.means graph.old).grammar.rules self.old }
        requires state { state < length self.old.kernels }
        ensures leads { IfOk result (LeadsFrom (G.means graph.old).grammar.rules self.old.kernels self.new.kernels state symbol) }
        ensures keeps { OnOk result (KeepsNumbers self.old.kernels self.new.kernels) }
        ensures expanded { OnOk result (AreExpandedIn (G.means graph.new).grammar.rules self.new) }
        ensures asks { OnOk result (AsksNew self.old.kernels self.new.kernels (G.means graph.old) (G.means graph.new) steps.old steps.new) }
        ensures stands { StandsButKernels (G.means graph.old) (G.means graph.new) }
        ensures never_back { steps.old ≤ steps.new }
    {
        self.table.next(graph, state as usize, symbol, steps)
    }

    /// Whether the state has a move on the symbol. The graph is not asked.
    pub fn has_move(&self, state: u32, symbol: SymbolId) -> bool
        requires { state < length self.now.kernels }
        ensures { OfState self.now state (λ rules kernel. IsTrue result ↔ HasMove rules (Contains kernel) symbol) }
    {
        self.table.place_of_move(state as usize, symbol).is_some()
    }

    /// Whether some move of the state is on the left side of a rule.
    pub fn opens(&self, state: u32) -> bool
        requires { state < length self.now.kernels }
        ensures { OfState self.now state (λ rules kernel. IsTrue result ↔ Opens rules kernel) }
    {
        self.table.rows[state as usize].opens
    }

    /// The live rules that are finished in the state and whose right sides are not empty.
    pub fn reductions(&self, state: u32) -> &[Reduction]
        requires { state < length self.now.kernels }
        ensures { OfState self.now state (λ rules kernel. ListsReductions rules kernel (λ size. 0 < size) result.now) }
    {
        let part = self.table.rows[state as usize].reductions;
        &self.table.reductions[part.first as usize..part.past as usize]
    }

    /// The live rules that are finished in the state and whose right sides are empty.
    pub fn empties(&self, state: u32) -> &[Reduction]
        requires { state < length self.now.kernels }
        ensures { OfState self.now state (λ rules kernel. ListsReductions rules kernel (λ size. size ≡ 0) result.now) }
    {
        let part = self.table.rows[state as usize].empties;
        &self.table.reductions[part.first as usize..part.past as usize]
    }
}
