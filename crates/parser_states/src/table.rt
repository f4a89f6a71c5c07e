//! The states in lists, and how one more is asked for and joins them.

ghost use Rattle.std.specs.Prelude.{◌≡◌, ◌≤◌, ◌<◌, ◌+◌, ◌^◌, length, List, [], ◌∷◌, ◌++◌, IfOk, OnOk, IfSome, IfNone, Contains};
ghost use Rattle.edit_log.specs.Facts.{IsWellFormed};
ghost use Rattle.item_sets.specs.declared.item.Item.{Item};
ghost use Rattle.item_sets.specs.Prefixes.{AreItems};
ghost use Rattle.live_graph.specs.Asking.{AsksKernel};
ghost use Rattle.parser_states.specs.Known.{known, known_moves, no_states};
ghost use Rattle.parser_states.specs.Moves.{IsMovePlace, HoldsItems, KeepsMoves};
ghost use Rattle.parser_states.specs.Rows.{IsShaped, KeepsExpansions, IsPlaceOf, IsNoneOf};
ghost use Rattle.forest.specs.Numbers.{KeepsNumbers};
ghost use Rattle.parser_states.specs.Leads.{LeadsFrom, IsNumbered};
ghost use Rattle.parser_states.specs.Asked.{StandsButKernels, AsksNew};

use crate::asking::copy_expansion;
use crate::moves::{MoveLists, UNKNOWN};
use crate::reduction::Reduction;
use crate::rows::{Row, number_of, row_of};
use crate::searches::place_of;
use edit_log::Grammar;
use forest::{RuleId, SymbolId};
use indexmap::IndexSet;
use item_sets::Kernel;
use live_graph::{Graph, NoMemory};
use std::alloc::Global;
use std::sync::ledger::Ledger;
use steps::Steps;

/// The states in lists.
#[derive(Drop)]
pub(crate) struct Table {
    /// The kernels, whose places here are the numbers of the states.
    pub(crate) keys: IndexSet<Kernel>,
    /// A row for each state.
    pub(crate) rows: Vec<Row>,
    /// The moves of all states.
    pub(crate) moves: MoveLists,
    /// The finished rules of all states, those of one state together.
    pub(crate) reductions: Vec<Reduction>,
    /// The finished rules of the state that is asked for.
    pub(crate) finished: Vec<RuleId>,
}

/// Each grammar is well-formed. This is told to a contract, and nothing is done.
fn is_formed(grammar: &Grammar)
    ensures { IsWellFormed grammar.now.grammar }
{
    grammar.version();
}

impl Table {
    pub(crate) fn new(alloc: Global) -> Table
        ensures { known result ≡ no_states }
    {
        Table {
            keys: IndexSet::new(alloc),
            rows: Vec::new(alloc),
            moves: MoveLists::new(alloc),
            reductions: Vec::new(alloc),
            finished: Vec::new(alloc),
        }
    }

    pub(crate) fn clear(&mut self)
        ensures { known self.new ≡ no_states }
    {
        self.keys.clear();
        self.rows.clear();
        self.moves.clear();
        self.reductions.clear();
    }

    /// Asks the graph for the kernel, which is of no state yet and becomes the last one.
    pub(crate) fn add<G: Graph, L: Ledger>(
        &mut self,
        graph: &mut G,
        kernel: Kernel,
        steps: &mut Steps<L>,
    ) -> Result<u32, NoMemory>
        requires shaped { IsShaped (known self.old) }
        requires told { KeepsExpansions (G.means graph.old).grammar.rules (known self.old) }
        requires items { AreItems (G.means graph.old).grammar.rules kernel }
        requires fresh { Contains self.old.keys.keys kernel → ⊥ }
        ensures number { IfOk result (λ number. (number ≡ length self.old.keys.keys) × (number + 1 < 2 ^ 32)) }
        ensures kernels { OnOk result (self.new.keys.keys ≡ self.old.keys.keys ++ kernel ∷ []) }
        ensures told { OnOk result (KeepsExpansions (G.means graph.old).grammar.rules (known self.new)) }
        ensures keeps { OnOk result (KeepsMoves (known_moves self.old.moves) (known_moves self.new.moves)) }
        ensures asks { OnOk result (AsksKernel (G.means graph.old) kernel (G.means graph.new) steps.old steps.new) }
        ensures shaped { IsShaped (known self.new) }
        ensures stands { StandsButKernels (G.means graph.old) (G.means graph.new) }
        ensures never_back { steps.old ≤ steps.new }
    {
        let number = number_of(self.keys.len())?;
        let moves = copy_expansion(graph, &kernel, &mut self.moves, &mut self.finished, steps)?;
        let symbols = &self.moves.symbols[moves.first as usize..moves.past as usize];
        let grammar = graph.grammar();
        is_formed(grammar);
        let row = row_of(
            grammar,
            moves,
            symbols,
            &self.finished,
            &mut self.reductions,
        )?;
        self.rows.push(row)?;
        self.keys.insert(kernel)?;
        Ok(number)
    }

    /// The number of the state of the kernel, which joins the states if it is of none.
    fn number_for<G: Graph, L: Ledger>(
        &mut self,
        graph: &mut G,
        kernel: Kernel,
        steps: &mut Steps<L>,
    ) -> Result<u32, NoMemory>
        requires shaped { IsShaped (known self.old) }
        requires told { KeepsExpansions (G.means graph.old).grammar.rules (known self.old) }
        requires items { AreItems (G.means graph.old).grammar.rules kernel }
        ensures number { IfOk result (λ number. IsNumbered kernel self.old.keys.keys self.new.keys.keys number × (number + 1 < 2 ^ 32)) }
        ensures told { OnOk result (KeepsExpansions (G.means graph.old).grammar.rules (known self.new)) }
        ensures keeps { OnOk result (KeepsMoves (known_moves self.old.moves) (known_moves self.new.moves)) }
        ensures asks { OnOk result (AsksNew self.old.keys.keys self.new.keys.keys (G.means graph.old) (G.means graph.new) steps.old steps.new) }
        ensures shaped { IsShaped (known self.new) }
        ensures stands { StandsButKernels (G.means graph.old) (G.means graph.new) }
        ensures never_back { steps.old ≤ steps.new }
    {
        if let Some(number) = self.keys.get_index_of(&kernel) {
            return number_of(number);
        }
        self.add(graph, kernel, steps)
    }

    /// The number of the state behind the move at this place, which is noted there.
    fn learn<G: Graph, L: Ledger>(
        &mut self,
        graph: &mut G,
        place: usize,
        steps: &mut Steps<L>,
    ) -> Result<u32, NoMemory>
        requires shaped { IsShaped (known self.old) }
        requires told { KeepsExpansions (G.means graph.old).grammar.rules (known self.old) }
        requires place { IsMovePlace (G.means graph.old).grammar.rules (known_moves self.old.moves) place }
        ensures number { IfOk result (λ number. (upper : List Item) → HoldsItems (known_moves self.old.moves) place upper
            → IsNumbered upper self.old.keys.keys self.new.keys.keys number) }
        ensures told { OnOk result (KeepsExpansions (G.means graph.old).grammar.rules (known self.new)) }
        ensures asks { OnOk result (AsksNew self.old.keys.keys self.new.keys.keys (G.means graph.old) (G.means graph.new) steps.old steps.new) }
        ensures shaped { IsShaped (known self.new) }
        ensures stands { StandsButKernels (G.means graph.old) (G.means graph.new) }
        ensures never_back { steps.old ≤ steps.new }
    {
        let part = self.moves.behind[place];
        let kernel = self.moves.kernel_behind(part)?;
        let number = self.number_for(graph, kernel, steps)?;
        self.moves.targets[place] = number + 1;
        Ok(number)
    }

    /// The place of the state's move on the symbol among the moves of all states.
    pub(crate) fn place_of_move(&self, state: usize, symbol: SymbolId) -> Option<usize>
        requires shaped { IsShaped (known self.now) }
        requires state { state < length self.now.keys.keys }
        ensures found { IfSome result (IsPlaceOf (known self.now) state symbol) }
        ensures none { IfNone result (IsNoneOf (known self.now) state symbol) }
    {
        let part = self.rows[state].moves;
        let first = part.first as usize;
        let place = place_of(&self.moves.symbols[first..part.past as usize], symbol)?;
        Some(first + place)
    }

    /// The number of the state behind the state's move on the symbol.
    pub(crate) fn next<G: Graph, L: Ledger>(
        &mut self,
        graph: &mut G,
        state: usize,
        symbol: SymbolId,
        steps: &mut Steps<L>,
    ) -> Result<Option<u32>, NoMemory>
        requires shaped { IsShaped (known self.old) }
        requires told { KeepsExpansions (G.means graph.old).grammar.rules (known self.old) }
        requires state { state < length self.old.keys.keys }
        ensures leads { IfOk result (LeadsFrom (G.means graph.old).grammar.rules self.old.keys.keys self.new.keys.keys state symbol) }
        ensures keeps { OnOk result (KeepsNumbers self.old.keys.keys self.new.keys.keys) }
        ensures told { OnOk result (KeepsExpansions (G.means graph.old).grammar.rules (known self.new)) }
        ensures asks { OnOk result (AsksNew self.old.keys.keys self.new.keys.keys (G.means graph.old) (G.means graph.new) steps.old steps.new) }
        ensures shaped { IsShaped (known self.new) }
        ensures stands { StandsButKernels (G.means graph.old) (G.means graph.new) }
        ensures never_back { steps.old ≤ steps.new }
    {
        let Some(place) = self.place_of_move(state, symbol) else {
            return Ok(None);
        };
        let known = self.moves.targets[place];
        if known != UNKNOWN {
            return Ok(Some(known - 1));
        }
        let number = self.learn(graph, place, steps)?;
        Ok(Some(number))
    }
}
