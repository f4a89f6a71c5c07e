//! Shifts: the links of tokens, from each level to the next.

ghost use Rattle.std.specs.Prelude.{◌≡◌, ◌≤◌, ◌<◌, ◌+◌, ◌≢◌, [], IfErr, OnOk, ℕ, List, Some, length, slice_get, Contains};
ghost use Rattle.forest.specs.Derivation.{AreTerminals};
ghost use Rattle.item_sets.specs.declared.item.Item.{Item};
ghost use Rattle.item_sets.specs.Expansions.{HasMove};
ghost use Rattle.edit_log.specs.Facts.{IsWellFormed};
ghost use Rattle.edit_log.specs.declared.limits.TheConstants.{TOKEN_LIMIT};
ghost use Rattle.parser_states.specs.Asked.{StandsButKernels, AsksNew};
ghost use Rattle.packed_spans.specs.declared.span.TheConstants.{TOKEN_PART};
ghost use Rattle.rekers.specs.Answers.{kinds_of, UnlessParseNoMemory};
ghost use Rattle.rekers.specs.Found.{found, IsNode, Grows};
ghost use Rattle.rekers.specs.Reductions.{IsWorked, IsLinkTo};
ghost use Rattle.rekers.specs.Sound.{IsSoundParser, ArePlaced};
ghost use Rattle.rekers.specs.Shifts.{AreBefore, IsBefore, AreShiftedFrom};
ghost use Rattle.rekers.specs.Steps.{IsStep, IsWithinLimit, IsAboveLimit, IsUnlinked, AreShifted, IsShift, Advances};

use crate::level::Level;
use crate::parse_error::ParseError;
use crate::parser::Parser;
use edit_log::Grammar;
use forest::{SymbolId, Token};
use live_graph::{Graph, NoMemory};
use packed_spans::TOKEN_PART;
use std::sync::ledger::Ledger;
use steps::Steps;

/// Each grammar is well-formed. This is told to a contract, and nothing is done.
fn is_formed(grammar: &Grammar)
    ensures { IsWellFormed grammar.now.grammar }
{
    grammar.version();
}

impl Parser {
    /// Begins with the start at place 0.
    pub(crate) fn begin<G: Graph, L: Ledger>(
        &mut self,
        graph: &mut G,
        _tokens: &[Token],
        steps: &mut Steps<L>,
    ) -> Result<(), NoMemory>
        requires terminals { AreTerminals (G.means graph.old).grammar.rules (kinds_of _tokens.now) }
        ensures sound { OnOk result (IsSoundParser (G.means graph.new).grammar.rules (kinds_of _tokens.now) self.new) }
        ensures placed { OnOk result (ArePlaced (found self.new)) }
        ensures worked { OnOk result (IsWorked (G.means graph.new).grammar.rules (found self.new) self.new.level.first_link self.new.level.first_node) }
        ensures within { OnOk result (IsWithinLimit self.new) }
        ensures at { OnOk result (self.new.level.at ≡ 0) }
        ensures asks { OnOk result (AsksNew [] self.new.states.kernels (G.means graph.old) (G.means graph.new) steps.old steps.new) }
        ensures stands { StandsButKernels (G.means graph.old) (G.means graph.new) }
        ensures never_back { steps.old ≤ steps.new }
    {
        self.stacks.clear();
        self.spans.clear();
        self.owners.clear();
        self.openers.clear();
        self.level = Level {
            at: 0,
            first_node: 0,
            first_link: 0,
        };
        self.is_flat = true;
        self.states.start(graph, steps)?;
        is_formed(graph.grammar());
        self.openers.push(0)?;
        self.stacks.add_node(0, 0)?;
        Ok(())
    }

    /// Goes on to the next level, which has no nodes yet.
    fn advance<G: Graph>(&mut self, _graph: &G, _tokens: &[Token]) -> Result<(), NoMemory>
        requires sound { IsSoundParser (G.means _graph.now).grammar.rules (kinds_of _tokens.now) self.old }
        requires place { self.old.level.at < TOKEN_LIMIT }
        requires within { IsWithinLimit self.old }
        ensures sound { OnOk result (IsSoundParser (G.means _graph.now).grammar.rules (kinds_of _tokens.now) self.new) }
        ensures level { OnOk result (Advances self.old self.new) }
        ensures same { OnOk result (self.new ≡ record self.old { openers = self.new.openers; level = self.new.level; is_flat = self.new.is_flat }) }
    {
        let next = Level {
            at: self.level.at + 1,
            first_node: self.stacks.node_count() as u32,
            first_link: self.stacks.link_count() as u32,
        };
        self.openers.push(next.first_node)?;
        self.level = next;
        self.is_flat = true;
        Ok(())
    }

    /// Shifts the token from the node, if the node moves on it.
    fn shift_node<G: Graph, L: Ledger>(
        &mut self,
        graph: &mut G,
        tokens: &[Token],
        node: u32,
        kind: SymbolId,
        steps: &mut Steps<L>,
    ) -> Result<(), ParseError>
        requires sound { IsSoundParser (G.means graph.old).grammar.rules (kinds_of tokens.now) self.old }
        requires within { IsWithinLimit self.old }
        requires node { IsShift (found self.old) (kinds_of tokens.now) node kind self.old.level.at }
        requires unlinked { IsUnlinked (found self.old) self.old.level.first_link node kind }
        ensures step { UnlessParseNoMemory result (IsStep (kinds_of tokens.now) self.old self.new (G.means graph.old) (G.means graph.new) steps.old steps.new) }
        ensures shifted { OnOk result ((kernel : List Item) (i : ℕ) → IsNode (found self.old) node kernel i
            → HasMove (G.means graph.old).grammar.rules (Contains kernel) kind
            → (link : ℕ) × IsLinkTo (found self.new) link node kind self.old.level.at TOKEN_PART) }
        ensures others { OnOk result ((other : ℕ) → other ≢ node → IsUnlinked (found self.old) self.old.level.first_link other kind
            → IsUnlinked (found self.new) self.old.level.first_link other kind) }
        ensures splits { UnlessParseNoMemory result (self.new.spans.splits ≡ self.old.spans.splits) }
        ensures within { OnOk result (IsWithinLimit self.new) }
        ensures above { IfErr result (IsAboveLimit self.new) }
        ensures stands { StandsButKernels (G.means graph.old) (G.means graph.new) }
        ensures never_back { steps.old ≤ steps.new }
    {
        let state = self.stacks.place(node).state;
        if !self.states.has_move(state, kind) {
            return Ok(());
        }
        let upper = self.upper(graph, tokens, node, kind, steps)?;
        self.attach(graph, tokens, upper, kind, node, TOKEN_PART)?;
        self.check_size()?;
        Ok(())
    }

    /// Shifts the token from the nodes of the level before, which has those from the first number to the past one.
    fn shift_nodes<G: Graph, L: Ledger>(
        &mut self,
        graph: &mut G,
        tokens: &[Token],
        first: u32,
        kind: SymbolId,
        steps: &mut Steps<L>,
    ) -> Result<(), ParseError>
        requires sound { IsSoundParser (G.means graph.old).grammar.rules (kinds_of tokens.now) self.old }
        requires within { IsWithinLimit self.old }
        requires first { AreBefore (found self.old) first self.old.level.first_node self.old.level.at }
        requires kind { IsBefore (kinds_of tokens.now) kind self.old.level.at }
        requires links { self.old.level.first_link ≡ length self.old.stacks.links }
        ensures step { UnlessParseNoMemory result (IsStep (kinds_of tokens.now) self.old self.new (G.means graph.old) (G.means graph.new) steps.old steps.new) }
        ensures shifted { OnOk result (AreShiftedFrom (G.means graph.old).grammar.rules (found self.new)
            first self.old.level.first_node kind self.old.level.at) }
        ensures splits { UnlessParseNoMemory result (self.new.spans.splits ≡ self.old.spans.splits) }
        ensures within { OnOk result (IsWithinLimit self.new) }
        ensures above { IfErr result (IsAboveLimit self.new) }
        ensures stands { StandsButKernels (G.means graph.old) (G.means graph.new) }
        ensures never_back { steps.old ≤ steps.new }
    {
        for node in first..self.level.first_node {
            self.shift_node(graph, tokens, node, kind, steps)?;
        }
        Ok(())
    }

    /// Shifts the token at the place of the level, from its nodes to the next level.
    pub(crate) fn shift<G: Graph, L: Ledger>(
        &mut self,
        graph: &mut G,
        tokens: &[Token],
        kind: SymbolId,
        steps: &mut Steps<L>,
    ) -> Result<(), ParseError>
        requires sound { IsSoundParser (G.means graph.old).grammar.rules (kinds_of tokens.now) self.old }
        requires within { IsWithinLimit self.old }
        requires kind { slice_get (kinds_of tokens.now) self.old.level.at ≡ Some kind }
        requires place { self.old.level.at < TOKEN_LIMIT }
        requires worked { IsWorked (G.means graph.old).grammar.rules (found self.old) (length self.old.stacks.links) (length self.old.stacks.nodes) }
        requires shifted { AreShifted (G.means graph.old).grammar.rules (kinds_of tokens.now) (found self.old) self.old.level.at }
        ensures sound { UnlessParseNoMemory result (IsSoundParser (G.means graph.new).grammar.rules (kinds_of tokens.now) self.new) }
        ensures placed { UnlessParseNoMemory result (ArePlaced (found self.old) → ArePlaced (found self.new)) }
        ensures grows { UnlessParseNoMemory result (Grows (found self.old) (found self.new)) }
        ensures asks { UnlessParseNoMemory result (AsksNew self.old.states.kernels self.new.states.kernels
            (G.means graph.old) (G.means graph.new) steps.old steps.new) }
        ensures at { OnOk result (self.new.level.at ≡ self.old.level.at + 1) }
        ensures worked { OnOk result (IsWorked (G.means graph.old).grammar.rules (found self.new) self.new.level.first_link self.new.level.first_node) }
        ensures shifted { OnOk result (AreShifted (G.means graph.old).grammar.rules (kinds_of tokens.now) (found self.new) self.new.level.at) }
        ensures within { OnOk result (IsWithinLimit self.new) }
        ensures above { IfErr result (IsAboveLimit self.new) }
        ensures stands { StandsButKernels (G.means graph.old) (G.means graph.new) }
        ensures never_back { steps.old ≤ steps.new }
    {
        let first = self.level.first_node;
        self.advance(graph, tokens)?;
        self.shift_nodes(graph, tokens, first, kind, steps)?;
        Ok(())
    }
}
