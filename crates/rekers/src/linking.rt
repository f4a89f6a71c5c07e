//! Links by left sides, and their spans.

ghost use Rattle.std.specs.Prelude.{◌≡◌, ◌≢◌, ◌≤◌, ◌<◌, ◌+◌, ◌^◌, ◌++◌, ◌∷◌, [], ℕ, Some, IfOk, OnOk, IsTrue, length, slice_get};
ghost use Rattle.forest.specs.Derivation.{IsNonterminal};
ghost use Rattle.gss.specs.declared.stack_graph.Place.{Place};
ghost use Rattle.gss.specs.PlaceGraphs.{edge_of};
ghost use Rattle.packed_spans.specs.Complete.{IsPartAt};
ghost use Rattle.parser_states.specs.Asked.{StandsButKernels};
ghost use Rattle.rekers.specs.Answers.{kinds_of};
ghost use Rattle.rekers.specs.Found.{found, Grows};
ghost use Rattle.rekers.specs.Reductions.{IsLinkTo};
ghost use Rattle.rekers.specs.Sound.{IsSoundParser, IsFirstMover};
ghost use Rattle.rekers.specs.Steps.{IsStep, IsLinkable, IsUpper, IsUnlinked, IsFirstOf, IsLinkBy, HasFewNodes};

use crate::parser::Parser;
use forest::{SymbolId, Token};
use live_graph::{Graph, NoMemory};
use std::sync::ledger::Ledger;
use steps::Steps;

/// Whether a level stays flat with a link down to the node.
fn stays_flat(is_flat: bool, lower: u32, first_node: u32) -> bool
    ensures { IsTrue result → IsTrue is_flat × (lower < first_node) }
{
    is_flat && lower < first_node
}

impl Parser {
    /// The node from which on those of the place may move on a left side.
    fn opener(&self, at: u32) -> u32
        requires { at < length self.now.openers.items }
        ensures { slice_get self.now.openers.items at ≡ Some result }
    {
        self.openers[at as usize]
    }

    /// The first made node at the place of this node that moves on the symbol.
    fn first_opener<G: Graph>(
        &self,
        _graph: &G,
        _tokens: &[Token],
        node: u32,
        symbol: SymbolId,
    ) -> u32
        requires sound { IsSoundParser (G.means _graph.now).grammar.rules (kinds_of _tokens.now) self.now }
        requires linkable { IsLinkable (G.means _graph.now).grammar.rules (kinds_of _tokens.now) (found self.now) node symbol self.now.level.at }
        requires nonterminal { IsNonterminal (G.means _graph.now).grammar.rules symbol }
        ensures { IsFirstOf (G.means _graph.now).grammar.rules (found self.now) node symbol result }
    {
        let at = self.stacks.place(node).at;
        let first = self.opener(at);
        for other in first..node {
            if self.states.has_move(self.stacks.place(other).state, symbol) {
                return other;
            }
        }
        node
    }

    /// Adds a link between the nodes, under the label.
    pub(crate) fn attach<G: Graph>(
        &mut self,
        _graph: &G,
        _tokens: &[Token],
        upper: u32,
        symbol: SymbolId,
        lower: u32,
        label: u32,
    ) -> Result<u32, NoMemory>
        requires sound { IsSoundParser (G.means _graph.now).grammar.rules (kinds_of _tokens.now) self.old }
        requires linkable { IsLinkable (G.means _graph.now).grammar.rules (kinds_of _tokens.now) (found self.old) lower symbol self.old.level.at }
        requires upper { IsUpper (G.means _graph.now).grammar.rules (found self.old) self.old.level.at lower symbol upper }
        requires unlinked { IsUnlinked (found self.old) self.old.level.first_link lower symbol }
        requires label { (place : Place) → slice_get self.old.stacks.nodes lower ≡ Some place
            → IsPartAt (G.means _graph.now).grammar.rules (kinds_of _tokens.now) self.old.spans.spans symbol place.at label self.old.level.at }
        requires room { length self.old.stacks.links < 2 ^ 30 }
        ensures link { IfOk result (λ link. IsLinkTo (found self.new) link lower symbol self.old.level.at label) }
        ensures sound { OnOk result (IsSoundParser (G.means _graph.now).grammar.rules (kinds_of _tokens.now) self.new) }
        ensures links { OnOk result (self.new.stacks.links ≡ self.old.stacks.links ++ edge_of upper symbol lower label ∷ []) }
        ensures nodes { OnOk result (self.new.stacks.nodes ≡ self.old.stacks.nodes) }
        ensures same { OnOk result (self.new ≡ record self.old { stacks = self.new.stacks; is_flat = self.new.is_flat }) }
    {
        let link = self.stacks.add_link(upper, symbol, lower, label)?;
        self.is_flat = stays_flat(self.is_flat, lower, self.level.first_node);
        Ok(link)
    }

    /// Adds a span, and the link between the nodes that makes it.
    #[inline(always)]
    fn own<G: Graph>(
        &mut self,
        _graph: &G,
        _tokens: &[Token],
        upper: u32,
        symbol: SymbolId,
        lower: u32,
    ) -> Result<u32, NoMemory>
        requires sound { IsSoundParser (G.means _graph.now).grammar.rules (kinds_of _tokens.now) self.old }
        requires linkable { IsLinkable (G.means _graph.now).grammar.rules (kinds_of _tokens.now) (found self.old) lower symbol self.old.level.at }
        requires nonterminal { IsNonterminal (G.means _graph.now).grammar.rules symbol }
        requires upper { IsUpper (G.means _graph.now).grammar.rules (found self.old) self.old.level.at lower symbol upper }
        requires unlinked { IsUnlinked (found self.old) self.old.level.first_link lower symbol }
        requires first { IsFirstMover (G.means _graph.now).grammar.rules (found self.old) lower symbol }
        requires room { length self.old.stacks.links < 2 ^ 30 }
        ensures link { IfOk result (λ link. IsLinkTo (found self.new) link lower symbol self.old.level.at (length self.old.spans.spans)) }
        ensures sound { OnOk result (IsSoundParser (G.means _graph.now).grammar.rules (kinds_of _tokens.now) self.new) }
        ensures grows { OnOk result (Grows (found self.old) (found self.new)) }
        ensures links { OnOk result (self.new.stacks.links ≡ self.old.stacks.links ++ edge_of upper symbol lower (length self.old.spans.spans) ∷ []) }
        ensures nodes { OnOk result (self.new.stacks.nodes ≡ self.old.stacks.nodes) }
        ensures splits { OnOk result (self.new.spans.splits ≡ self.old.spans.splits) }
        ensures same { OnOk result (self.new ≡ record self.old {
          stacks = self.new.stacks;
          spans = self.new.spans;
          owners = self.new.owners;
          is_flat = self.new.is_flat;
        }) }
    {
        let from = self.stacks.place(lower).at;
        let span = self.spans.add_span(symbol, from, self.level.at)?;
        let link = self.stacks.add_link(upper, symbol, lower, span)?;
        self.owners.push(link)?;
        self.is_flat = stays_flat(self.is_flat, lower, self.level.first_node);
        Ok(link)
    }

    /// Adds the link by the left side down to the node, which is the first one with a move on it. It makes the span.
    #[inline(always)]
    fn new_owner<G: Graph, L: Ledger>(
        &mut self,
        graph: &mut G,
        tokens: &[Token],
        lower: u32,
        symbol: SymbolId,
        steps: &mut Steps<L>,
    ) -> Result<u32, NoMemory>
        requires sound { IsSoundParser (G.means graph.old).grammar.rules (kinds_of tokens.now) self.old }
        requires linkable { IsLinkable (G.means graph.old).grammar.rules (kinds_of tokens.now) (found self.old) lower symbol self.old.level.at }
        requires nonterminal { IsNonterminal (G.means graph.old).grammar.rules symbol }
        requires first { IsFirstMover (G.means graph.old).grammar.rules (found self.old) lower symbol }
        requires few { HasFewNodes self.old }
        requires room { length self.old.stacks.links < 2 ^ 20 }
        requires unlinked { IsUnlinked (found self.old) self.old.level.first_link lower symbol }
        ensures link { IfOk result (λ link. IsLinkBy (found self.new) link lower symbol self.old.level.at) }
        ensures step { OnOk result (IsStep (kinds_of tokens.now) self.old self.new (G.means graph.old) (G.means graph.new) steps.old steps.new) }
        ensures others { OnOk result ((other : ℕ) → other ≢ lower → IsUnlinked (found self.old) self.old.level.first_link other symbol
            → IsUnlinked (found self.new) self.old.level.first_link other symbol) }
        ensures few { OnOk result (HasFewNodes self.new) }
        ensures count { OnOk result (length self.new.stacks.links ≤ length self.old.stacks.links + 1) }
        ensures splits { OnOk result (self.new.spans.splits ≡ self.old.spans.splits) }
        ensures trail { OnOk result ((self.new.trails ≡ self.old.trails) × (self.new.parts ≡ self.old.parts)) }
        ensures stands { StandsButKernels (G.means graph.old) (G.means graph.new) }
        ensures never_back { steps.old ≤ steps.new }
    {
        let upper = self.upper(graph, tokens, lower, symbol, steps)?;
        let link = self.own(graph, tokens, upper, symbol, lower)?;
        Ok(link)
    }

    /// The link by the left side down to the node, which is the first one with a move on it. It makes the span.
    fn owning_link<G: Graph, L: Ledger>(
        &mut self,
        graph: &mut G,
        tokens: &[Token],
        lower: u32,
        symbol: SymbolId,
        steps: &mut Steps<L>,
    ) -> Result<u32, NoMemory>
        requires sound { IsSoundParser (G.means graph.old).grammar.rules (kinds_of tokens.now) self.old }
        requires linkable { IsLinkable (G.means graph.old).grammar.rules (kinds_of tokens.now) (found self.old) lower symbol self.old.level.at }
        requires nonterminal { IsNonterminal (G.means graph.old).grammar.rules symbol }
        requires first { IsFirstMover (G.means graph.old).grammar.rules (found self.old) lower symbol }
        requires few { HasFewNodes self.old }
        requires room { length self.old.stacks.links < 2 ^ 20 }
        ensures link { IfOk result (λ link. IsLinkBy (found self.new) link lower symbol self.old.level.at) }
        ensures step { OnOk result (IsStep (kinds_of tokens.now) self.old self.new (G.means graph.old) (G.means graph.new) steps.old steps.new) }
        ensures others { OnOk result ((other : ℕ) → other ≢ lower → IsUnlinked (found self.old) self.old.level.first_link other symbol
            → IsUnlinked (found self.new) self.old.level.first_link other symbol) }
        ensures few { OnOk result (HasFewNodes self.new) }
        ensures count { OnOk result (length self.new.stacks.links ≤ length self.old.stacks.links + 1) }
        ensures splits { OnOk result (self.new.spans.splits ≡ self.old.spans.splits) }
        ensures trail { OnOk result ((self.new.trails ≡ self.old.trails) × (self.new.parts ≡ self.old.parts)) }
        ensures stands { StandsButKernels (G.means graph.old) (G.means graph.new) }
        ensures never_back { steps.old ≤ steps.new }
    {
        if let Some(link) = self.stacks.link_above(lower, symbol, self.level.first_link) {
            return Ok(link);
        }
        self.new_owner(graph, tokens, lower, symbol, steps)
    }

    /// Adds the link by the left side from the level down to the node.
    pub(crate) fn new_link<G: Graph, L: Ledger>(
        &mut self,
        graph: &mut G,
        tokens: &[Token],
        lower: u32,
        symbol: SymbolId,
        steps: &mut Steps<L>,
    ) -> Result<u32, NoMemory>
        requires sound { IsSoundParser (G.means graph.old).grammar.rules (kinds_of tokens.now) self.old }
        requires linkable { IsLinkable (G.means graph.old).grammar.rules (kinds_of tokens.now) (found self.old) lower symbol self.old.level.at }
        requires nonterminal { IsNonterminal (G.means graph.old).grammar.rules symbol }
        requires few { HasFewNodes self.old }
        requires room { length self.old.stacks.links < 2 ^ 19 }
        requires unlinked { IsUnlinked (found self.old) self.old.level.first_link lower symbol }
        ensures link { IfOk result (λ link. IsLinkBy (found self.new) link lower symbol self.old.level.at) }
        ensures step { OnOk result (IsStep (kinds_of tokens.now) self.old self.new (G.means graph.old) (G.means graph.new) steps.old steps.new) }
        ensures few { OnOk result (HasFewNodes self.new) }
        ensures count { OnOk result (length self.new.stacks.links ≤ length self.old.stacks.links + 2) }
        ensures splits { OnOk result (self.new.spans.splits ≡ self.old.spans.splits) }
        ensures trail { OnOk result ((self.new.trails ≡ self.old.trails) × (self.new.parts ≡ self.old.parts)) }
        ensures stands { StandsButKernels (G.means graph.old) (G.means graph.new) }
        ensures never_back { steps.old ≤ steps.new }
    {
        let first = self.first_opener(graph, tokens, lower, symbol);
        if first == lower {
            return self.new_owner(graph, tokens, lower, symbol, steps);
        }
        let owner = self.owning_link(graph, tokens, first, symbol, steps)?;
        let label = self.stacks.edge(owner).label;
        let upper = self.upper(graph, tokens, lower, symbol, steps)?;
        let link = self.attach(graph, tokens, upper, symbol, lower, label)?;
        Ok(link)
    }
}
