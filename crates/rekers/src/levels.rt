//! The levels of a text, one after the other.

ghost use Rattle.std.specs.Prelude.{◌≡◌, ◌≤◌, ◌<◌, ◌+◌, [], IfErr, OnOk, Some, length, slice_get};
ghost use Rattle.forest.specs.Derivation.{AreTerminals};
ghost use Rattle.edit_log.specs.declared.limits.TheConstants.{TOKEN_LIMIT};
ghost use Rattle.parser_states.specs.Asked.{StandsButKernels, AsksNew};
ghost use Rattle.rekers.specs.Answers.{kinds_of, UnlessParseNoMemory};
ghost use Rattle.forest.specs.Numbers.{KeepsNumbers};
ghost use Rattle.rekers.specs.Levels.{AreLevelsDone, IsStopped};

use crate::parse_error::ParseError;
use crate::parser::Parser;
use forest::{SymbolId, Token};
use live_graph::Graph;
use std::sync::ledger::Ledger;
use steps::Steps;

impl Parser {
    /// Does the first level.
    fn first_level<G: Graph, L: Ledger>(
        &mut self,
        graph: &mut G,
        tokens: &[Token],
        steps: &mut Steps<L>,
    ) -> Result<(), ParseError>
        requires terminals { AreTerminals (G.means graph.old).grammar.rules (kinds_of tokens.now) }
        ensures done { OnOk result (AreLevelsDone (G.means graph.old).grammar.rules (kinds_of tokens.now) self.new 0) }
        ensures stopped { IfErr result (IsStopped (G.means graph.old).grammar.rules (kinds_of tokens.now) self.new) }
        ensures asks { UnlessParseNoMemory result (AsksNew [] self.new.states.kernels (G.means graph.old) (G.means graph.new) steps.old steps.new) }
        ensures stands { StandsButKernels (G.means graph.old) (G.means graph.new) }
        ensures never_back { steps.old ≤ steps.new }
    {
        self.begin(graph, tokens, steps)?;
        self.reduce_level(graph, tokens, steps)?;
        Ok(())
    }

    /// Does the next level, which the token leads to.
    fn next_level<G: Graph, L: Ledger>(
        &mut self,
        graph: &mut G,
        tokens: &[Token],
        kind: SymbolId,
        steps: &mut Steps<L>,
    ) -> Result<(), ParseError>
        requires done { AreLevelsDone (G.means graph.old).grammar.rules (kinds_of tokens.now) self.old self.old.level.at }
        requires kind { slice_get (kinds_of tokens.now) self.old.level.at ≡ Some kind }
        requires place { self.old.level.at < TOKEN_LIMIT }
        ensures done { OnOk result (AreLevelsDone (G.means graph.old).grammar.rules (kinds_of tokens.now) self.new (self.old.level.at + 1)) }
        ensures stopped { IfErr result (IsStopped (G.means graph.old).grammar.rules (kinds_of tokens.now) self.new) }
        ensures asks { UnlessParseNoMemory result (AsksNew self.old.states.kernels self.new.states.kernels
            (G.means graph.old) (G.means graph.new) steps.old steps.new) }
        ensures kernels { UnlessParseNoMemory result (KeepsNumbers self.old.states.kernels self.new.states.kernels) }
        ensures stands { StandsButKernels (G.means graph.old) (G.means graph.new) }
        ensures never_back { steps.old ≤ steps.new }
    {
        self.shift(graph, tokens, kind, steps)?;
        self.reduce_level(graph, tokens, steps)?;
        Ok(())
    }

    /// Does all levels of the text.
    pub(crate) fn levels<G: Graph, L: Ledger>(
        &mut self,
        graph: &mut G,
        tokens: &[Token],
        steps: &mut Steps<L>,
    ) -> Result<(), ParseError>
        requires few { length tokens.now ≤ TOKEN_LIMIT }
        requires terminals { AreTerminals (G.means graph.old).grammar.rules (kinds_of tokens.now) }
        ensures done { OnOk result (AreLevelsDone (G.means graph.old).grammar.rules (kinds_of tokens.now) self.new (length tokens.now)) }
        ensures stopped { IfErr result (IsStopped (G.means graph.old).grammar.rules (kinds_of tokens.now) self.new) }
        ensures asks { UnlessParseNoMemory result (AsksNew [] self.new.states.kernels (G.means graph.old) (G.means graph.new) steps.old steps.new) }
        ensures stands { StandsButKernels (G.means graph.old) (G.means graph.new) }
        ensures never_back { steps.old ≤ steps.new }
    {
        self.first_level(graph, tokens, steps)?;
        for token in tokens {
            self.next_level(graph, tokens, token.kind, steps)?;
        }
        Ok(())
    }
}
