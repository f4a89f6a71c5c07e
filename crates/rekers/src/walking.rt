//! Walks down the links, which find the trails of reductions.

ghost use Rattle.std.specs.Prelude.{◌≡◌, ◌≤◌, ◌<◌, [], IfErr, OnOk, length};
ghost use Rattle.parser_states.specs.Asked.{StandsButKernels};
ghost use Rattle.rekers.specs.Answers.{kinds_of, UnlessParseNoMemory};
ghost use Rattle.rekers.specs.Found.{found};
ghost use Rattle.rekers.specs.Sound.{IsSoundParser};
ghost use Rattle.rekers.specs.Starts.{trails_for, IsStart, IsTop};
ghost use Rattle.rekers.specs.Steps.{IsStep, IsWalked, IsFresh, IsWithinLimit, IsAboveLimit, IsOfLevel};

use crate::parse_error::ParseError;
use crate::parser::Parser;
use crate::walk::Walk;
use forest::Token;
use live_graph::{Graph, NoMemory};
use std::sync::ledger::Ledger;
use steps::Steps;

/// The walk over the trails. A link of the level leads down from a node of the level alone, so no trail goes on from a
/// node before the level until it has gone through the link.
fn trails_of(walk: Walk, first_node: u32) -> gss::Walk
    ensures { result ≡ trails_for walk first_node }
{
    gss::Walk {
        top: walk.top,
        length: walk.reduction.length,
        last: walk.through,
        through: Some(walk.through),
        floor: first_node,
    }
}

impl Parser {
    /// Begins the walk at its top. But where no link of the level leads down to a node of the level, all trails through the
    /// link begin with it, so if it leads down from the top, the walk begins below it.
    fn begin_walk(&mut self, walk: Walk) -> Result<(), NoMemory>
        requires { walk.through < length self.old.stacks.links }
        ensures start { OnOk result (IsStart self.old.stacks.links self.old.is_flat walk self.old.level.first_node self.new.trails) }
        ensures same { OnOk result (self.new ≡ record self.old { trails = self.new.trails }) }
    {
        let trails = trails_of(walk, self.level.first_node);
        if self.is_flat && self.stacks.edge(walk.through).upper == walk.top {
            self.trails.begin_with(trails, walk.through)?;
            return Ok(());
        }
        self.trails.begin(trails);
        Ok(())
    }

    /// Makes the reductions of all trails that the walk is for.
    pub(crate) fn walk_down<G: Graph, L: Ledger>(
        &mut self,
        graph: &mut G,
        tokens: &[Token],
        walk: Walk,
        steps: &mut Steps<L>,
    ) -> Result<(), ParseError>
        requires sound { IsSoundParser (G.means graph.old).grammar.rules (kinds_of tokens.now) self.old }
        requires within { IsWithinLimit self.old }
        requires top { IsTop (G.means graph.old).grammar.rules (found self.old) walk self.old.level.at }
        requires link { IsOfLevel (found self.old) self.old.level.first_link walk.through }
        requires fresh { IsFresh (G.means graph.old).grammar.rules (found self.old) walk }
        ensures step { UnlessParseNoMemory result (IsStep (kinds_of tokens.now) self.old self.new (G.means graph.old) (G.means graph.new) steps.old steps.new) }
        ensures walked { OnOk result (IsWalked (G.means graph.old).grammar.rules (found self.old) (found self.new) walk self.old.level.at) }
        ensures within { OnOk result (IsWithinLimit self.new) }
        ensures above { IfErr result (IsAboveLimit self.new) }
        ensures stands { StandsButKernels (G.means graph.old) (G.means graph.new) }
        ensures never_back { steps.old ≤ steps.new }
    {
        self.begin_walk(walk)?;
        let mut is_more = self.trails.next(&self.stacks)?;
        'trails: while is_more {
            let lower = self.trails.end(&self.stacks);
            self.reduce(graph, tokens, walk.reduction, lower, walk.top, steps)?;
            is_more = self.trails.next(&self.stacks)?;
        }
        Ok(())
    }
}
