//! The parse of a text.

ghost use Rattle.std.specs.Prelude.{◌≡◌, ◌≤◌, length, IfOk, IfErr, OnOk};
ghost use Rattle.edit_log.specs.declared.limits.TheConstants.{TOKEN_LIMIT};
ghost use Rattle.forest.specs.declared.symbols.TheConstants.{START};
ghost use Rattle.forest.specs.Derivation.{AreTerminals};
ghost use Rattle.live_graph.specs.Cost.{RisesAsCost};
ghost use Rattle.gss.specs.PlaceGraphs.{LeadsToBy};
ghost use Rattle.packed_spans.specs.Complete.{IsComplete};
ghost use Rattle.rekers.specs.Answers.{kinds_of, TellsForest, TellsNoSentence, IsWithin, TellsTooLarge, IfTooLarge, UnlessParseNoMemory};
ghost use Rattle.rekers.specs.Asked.{AsksStates, AsksSomeStates};
ghost use Rattle.rekers.specs.Found.{found};
ghost use Rattle.rekers.specs.Reductions.{IsWorked};
ghost use Rattle.rekers.specs.Sound.{IsSoundParser};
ghost use Rattle.rekers.specs.Steps.{AreShifted};

use crate::parse_error::ParseError;
use crate::parsed::Parsed;
use crate::parser::Parser;
use forest::{START, Token};
use live_graph::{Graph, NoMemory};
use packed_spans::TOKEN_PART;
use std::alloc::Global;
use std::sync::ledger::Ledger;
use steps::Steps;

impl Parser {
    /// The span that the forest begins with, where the link tells that START derives the text. If START is the one
    /// token, this adds a span for it.
    fn root<G: Graph>(&mut self, _graph: &G, _tokens: &[Token], link: u32) -> Result<u32, NoMemory>
        requires sound { IsSoundParser (G.means _graph.now).grammar.rules (kinds_of _tokens.now) self.old }
        requires worked { IsWorked (G.means _graph.now).grammar.rules (found self.old) (length self.old.stacks.links) (length self.old.stacks.nodes) }
        requires shifted { AreShifted (G.means _graph.now).grammar.rules (kinds_of _tokens.now) (found self.old) self.old.level.at }
        requires at { self.old.level.at ≡ length _tokens.now }
        requires link { LeadsToBy self.old.stacks.links 0 START self.old.level.first_link link }
        ensures { IfOk result (IsComplete (G.means _graph.now).grammar.rules (kinds_of _tokens.now) self.new.spans) }
    {
        let label = self.stacks.edge(link).label;
        if label != TOKEN_PART {
            return Ok(label);
        }
        let root = self.spans.add_span(START, 0, self.level.at)?;
        Ok(root)
    }

    /// The answer, where all levels are done.
    fn answer<G: Graph>(
        &mut self,
        alloc: Global,
        _graph: &G,
        _tokens: &[Token],
    ) -> Result<Parsed, NoMemory>
        requires sound { IsSoundParser (G.means _graph.now).grammar.rules (kinds_of _tokens.now) self.old }
        requires worked { IsWorked (G.means _graph.now).grammar.rules (found self.old) (length self.old.stacks.links) (length self.old.stacks.nodes) }
        requires shifted { AreShifted (G.means _graph.now).grammar.rules (kinds_of _tokens.now) (found self.old) self.old.level.at }
        requires at { self.old.level.at ≡ length _tokens.now }
        ensures forest { IfOk result (TellsForest (G.means _graph.now).grammar.rules (kinds_of _tokens.now)) }
        ensures no_sentence { IfOk result (TellsNoSentence (G.means _graph.now).grammar.rules (kinds_of _tokens.now)) }
    {
        let Some(link) = self.stacks.link_above(0, START, self.level.first_link) else {
            self.stacks.is_sound();
            let last = self.stacks.node_count() as u32 - 1;
            return Ok(Parsed::NoSentence {
                at: self.stacks.place(last).at,
            });
        };
        let root = self.root(_graph, _tokens, link)?;
        let forest = self.spans.forest(alloc, root)?;
        Ok(Parsed::Forest(forest))
    }

    /// The forest of the tokens, or the last place where a state is reached, as [`parse`] finds them. The parser's
    /// buffers are used again.
    pub fn parse<G: Graph, L: Ledger>(
        &mut self,
        alloc: Global,
        graph: &mut G,
        tokens: &[Token],
        steps: &mut Steps<L>,
    ) -> Result<Parsed, ParseError>
        requires few { length tokens.now ≤ TOKEN_LIMIT }
        requires terminals { AreTerminals (G.means graph.old).grammar.rules (kinds_of tokens.now) }
        ensures forest { IfOk result (TellsForest (G.means graph.old).grammar.rules (kinds_of tokens.now)) }
        ensures no_sentence { IfOk result (TellsNoSentence (G.means graph.old).grammar.rules (kinds_of tokens.now)) }
        ensures within { OnOk result (IsWithin (G.means graph.old).grammar.rules (kinds_of tokens.now)) }
        ensures too_large { IfErr result (TellsTooLarge (G.means graph.old).grammar.rules (kinds_of tokens.now)) }
        ensures asked { OnOk result (AsksStates (kinds_of tokens.now) (G.means graph.old) (G.means graph.new)) }
        ensures asked_some { IfTooLarge result (AsksSomeStates (kinds_of tokens.now) (G.means graph.old) (G.means graph.new)) }
        ensures steps { UnlessParseNoMemory result (RisesAsCost (G.means graph.old) (G.means graph.new) steps.old steps.new) }
        ensures grammar { (G.means graph.new).grammar ≡ (G.means graph.old).grammar }
        ensures base { (G.means graph.new).base ≡ (G.means graph.old).base }
        ensures scans { (G.means graph.new).scans ≡ (G.means graph.old).scans }
        ensures never_back { steps.old ≤ steps.new }
    {
        self.levels(graph, tokens, steps)?;
        let parsed = self.answer(alloc, graph, tokens)?;
        Ok(parsed)
    }
}

/// The forest of the tokens by the grammar of the graph, or the last place where a state is reached if there is none.
pub fn parse<G: Graph, L: Ledger>(
    alloc: Global,
    graph: &mut G,
    tokens: &[Token],
    steps: &mut Steps<L>,
) -> Result<Parsed, ParseError>
    requires few { length tokens.now ≤ TOKEN_LIMIT }
    requires terminals { AreTerminals (G.means graph.old).grammar.rules (kinds_of tokens.now) }
    ensures forest { IfOk result (TellsForest (G.means graph.old).grammar.rules (kinds_of tokens.now)) }
    ensures no_sentence { IfOk result (TellsNoSentence (G.means graph.old).grammar.rules (kinds_of tokens.now)) }
    ensures within { OnOk result (IsWithin (G.means graph.old).grammar.rules (kinds_of tokens.now)) }
    ensures too_large { IfErr result (TellsTooLarge (G.means graph.old).grammar.rules (kinds_of tokens.now)) }
    ensures asked { OnOk result (AsksStates (kinds_of tokens.now) (G.means graph.old) (G.means graph.new)) }
    ensures asked_some { IfTooLarge result (AsksSomeStates (kinds_of tokens.now) (G.means graph.old) (G.means graph.new)) }
    ensures steps { UnlessParseNoMemory result (RisesAsCost (G.means graph.old) (G.means graph.new) steps.old steps.new) }
    ensures grammar { (G.means graph.new).grammar ≡ (G.means graph.old).grammar }
    ensures base { (G.means graph.new).base ≡ (G.means graph.old).base }
    ensures scans { (G.means graph.new).scans ≡ (G.means graph.old).scans }
    ensures never_back { steps.old ≤ steps.new }
{
    let mut parser = Parser::new(alloc);
    parser.parse(alloc, graph, tokens, steps)
}
