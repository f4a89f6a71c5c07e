//! Nodes of the level.

ghost use Rattle.std.specs.Prelude.{◌≡◌, ◌≤◌, ◌<◌, ◌+◌, ◌-◌, ◌^◌, ◌⊎◌, ℕ, List, Some, IfOk, OnOk, length, slice_get};
ghost use Rattle.item_sets.specs.declared.item.Item.{Item};
ghost use Rattle.gss.specs.declared.stack_graph.Place.{Place};
ghost use Rattle.gss.specs.PlaceGraphs.{place_with};
ghost use Rattle.parser_states.specs.Asked.{StandsButKernels, AsksNew};
ghost use Rattle.forest.specs.Numbers.{KeepsNumbers};
ghost use Rattle.rekers.specs.States.{IsStateAt};
ghost use Rattle.rekers.specs.Answers.{kinds_of};
ghost use Rattle.rekers.specs.Found.{found, Grows};
ghost use Rattle.rekers.specs.Sound.{IsSoundParser, ArePlaced};
ghost use Rattle.rekers.specs.Steps.{AddsNode, IsLinkable, IsStateBehind, IsUpper, IsPassed};

use crate::level::Level;
use crate::parser::Parser;
use forest::{SymbolId, Token};
use gss::StackGraph;
use live_graph::{Graph, NoMemory};
use std::sync::ledger::Ledger;
use steps::Steps;

/// The node of the state at the level, which is added if there is none.
fn node_of(stacks: &mut StackGraph, level: Level, state: u32) -> Result<u32, NoMemory>
    requires here { (node : ℕ) (place : Place) → slice_get stacks.old.nodes node ≡ Some place → level.first_node ≤ node → place.at ≡ level.at }
    requires before { (node : ℕ) (place : Place) → slice_get stacks.old.nodes node ≡ Some place → node < level.first_node → place.at < level.at }
    requires room { length stacks.old.nodes < 2 ^ 32 - 1 }
    ensures node { IfOk result (λ node. slice_get stacks.new.nodes node ≡ Some (place_with state level.at)) }
    ensures nodes { OnOk result (AddsNode stacks.old.nodes stacks.new.nodes state level.at) }
    ensures links { OnOk result (stacks.new.links ≡ stacks.old.links) }
{
    if let Some(node) = stacks.newest_node(state) {
        if node >= level.first_node {
            return Ok(node);
        }
    }
    let node = stacks.add_node(state, level.at)?;
    Ok(node)
}

/// Notes at the place that the node there moves on no left side, if all before it there do not either.
fn pass_over(openers: &mut Vec<u32>, at: u32, node: u32)
    requires at { at < length openers.old.items }
    requires room { node < 2 ^ 32 - 1 }
    ensures { IsPassed openers.old.items openers.new.items at node }
{
    if openers[at as usize] == node {
        openers[at as usize] = node + 1;
    }
}

impl Parser {
    /// The state behind the move of the node on the symbol.
    fn behind<G: Graph, L: Ledger>(
        &mut self,
        graph: &mut G,
        tokens: &[Token],
        lower: u32,
        symbol: SymbolId,
        steps: &mut Steps<L>,
    ) -> Result<u32, NoMemory>
        requires sound { IsSoundParser (G.means graph.old).grammar.rules (kinds_of tokens.now) self.old }
        requires linkable { IsLinkable (G.means graph.old).grammar.rules (kinds_of tokens.now) (found self.old) lower symbol self.old.level.at }
        ensures behind { IfOk result (IsStateBehind (G.means graph.old).grammar.rules (found self.new) lower symbol) }
        ensures sound { OnOk result (IsSoundParser (G.means graph.new).grammar.rules (kinds_of tokens.now) self.new) }
        ensures same { OnOk result (self.new ≡ record self.old { states = self.new.states }) }
        ensures keeps { OnOk result (KeepsNumbers self.old.states.kernels self.new.states.kernels) }
        ensures others { IfOk result (λ behind. (state : ℕ) (kernel : List Item) → slice_get self.new.states.kernels state ≡ Some kernel
            → (state ≡ behind) ⊎ (slice_get self.old.states.kernels state ≡ Some kernel)) }
        ensures asks { OnOk result (AsksNew self.old.states.kernels self.new.states.kernels (G.means graph.old) (G.means graph.new) steps.old steps.new) }
        ensures stands { StandsButKernels (G.means graph.old) (G.means graph.new) }
        ensures never_back { steps.old ≤ steps.new }
    {
        let state = self.stacks.place(lower).state;
        let Some(behind) = self.states.next(graph, state, symbol, steps)? else {
            unreachable!();
        };
        Ok(behind)
    }

    /// The node of the state at the level.
    fn place<G: Graph>(
        &mut self,
        _graph: &G,
        _tokens: &[Token],
        state: u32,
    ) -> Result<u32, NoMemory>
        requires sound { IsSoundParser (G.means _graph.now).grammar.rules (kinds_of _tokens.now) self.old }
        requires state { state < length self.old.states.kernels }
        requires reached { (kernel : List Item) → slice_get self.old.states.kernels state ≡ Some kernel
            → IsStateAt (G.means _graph.now).grammar.rules (kinds_of _tokens.now) kernel self.old.level.at }
        requires room { length self.old.stacks.nodes < 2 ^ 30 }
        ensures node { IfOk result (λ node. slice_get self.new.stacks.nodes node ≡ Some (place_with state self.old.level.at)) }
        ensures sound { OnOk result (IsSoundParser (G.means _graph.now).grammar.rules (kinds_of _tokens.now) self.new) }
        ensures nodes { OnOk result (AddsNode self.old.stacks.nodes self.new.stacks.nodes state self.old.level.at) }
        ensures links { OnOk result (self.new.stacks.links ≡ self.old.stacks.links) }
        ensures same { OnOk result (self.new ≡ record self.old { stacks = self.new.stacks; openers = self.new.openers }) }
    {
        let past = self.stacks.node_count();
        let node = node_of(&mut self.stacks, self.level, state)?;
        let is_new = node as usize == past;
        if is_new && !self.states.opens(state) {
            pass_over(&mut self.openers, self.level.at, node);
        }
        Ok(node)
    }

    /// The node at the level behind the move of the node on the symbol.
    pub(crate) fn upper<G: Graph, L: Ledger>(
        &mut self,
        graph: &mut G,
        tokens: &[Token],
        lower: u32,
        symbol: SymbolId,
        steps: &mut Steps<L>,
    ) -> Result<u32, NoMemory>
        requires sound { IsSoundParser (G.means graph.old).grammar.rules (kinds_of tokens.now) self.old }
        requires linkable { IsLinkable (G.means graph.old).grammar.rules (kinds_of tokens.now) (found self.old) lower symbol self.old.level.at }
        requires room { length self.old.stacks.nodes < 2 ^ 30 }
        ensures sound { OnOk result (IsSoundParser (G.means graph.new).grammar.rules (kinds_of tokens.now) self.new) }
        ensures grows { OnOk result (Grows (found self.old) (found self.new)) }
        ensures placed { OnOk result (ArePlaced (found self.old) → ArePlaced (found self.new)) }
        ensures asks { OnOk result (AsksNew self.old.states.kernels self.new.states.kernels (G.means graph.old) (G.means graph.new) steps.old steps.new) }
        ensures count { OnOk result (length self.new.stacks.nodes ≤ length self.old.stacks.nodes + 1) }
        ensures upper { IfOk result (IsUpper (G.means graph.old).grammar.rules (found self.new) self.old.level.at lower symbol) }
        ensures links { OnOk result (self.new.stacks.links ≡ self.old.stacks.links) }
        ensures same { OnOk result (self.new ≡ record self.old { states = self.new.states; stacks = self.new.stacks; openers = self.new.openers }) }
        ensures stands { StandsButKernels (G.means graph.old) (G.means graph.new) }
        ensures never_back { steps.old ≤ steps.new }
    {
        let behind = self.behind(graph, tokens, lower, symbol, steps)?;
        let node = self.place(graph, tokens, behind)?;
        Ok(node)
    }
}
