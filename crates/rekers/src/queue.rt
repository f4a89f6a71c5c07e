//! The queue of links and nodes whose reductions are made.

ghost use Rattle.std.specs.Prelude.{◌≡◌, ◌⊎◌, ◌↔◌, ◌≤◌, ◌<◌, ◌+◌, IfErr, IfOk, OnOk, IsTrue, length};
ghost use Rattle.parser_states.specs.declared.reduction.Reduction.{Reduction as ReductionBy};
ghost use Rattle.parser_states.specs.Asked.{StandsButKernels};
ghost use Rattle.rekers.specs.Answers.{kinds_of, UnlessParseNoMemory};
ghost use Rattle.rekers.specs.Found.{found};
ghost use Rattle.rekers.specs.Reductions.{IsWorked};
ghost use Rattle.rekers.specs.Sound.{IsSoundParser};
ghost use Rattle.rekers.specs.Steps.{IsStep, IsWithinLimit, IsAboveLimit, IsOfLevel, IsAnyFresh, IsNodeWalked, GoesOn};

use crate::parse_error::ParseError;
use crate::parser::{NO_LINKS, Parser};
use crate::walk::Walk;
use forest::Token;
use live_graph::Graph;
use std::sync::ledger::Ledger;
use steps::Steps;

/// How far the queue is worked: of the nodes before one number the empty rules are, and of the links before another the
/// trails that go through them.
#[derive(Clone, Copy)]
pub(crate) struct Queue {
    /// The first node whose empty rules are not made yet.
    pub(crate) node: u32,
    /// The first link whose trails are not gone yet.
    pub(crate) link: u32,
}

impl Parser {
    /// Makes the reductions by empty rules of the next node.
    fn reduce_empties<G: Graph, L: Ledger>(
        &mut self,
        graph: &mut G,
        tokens: &[Token],
        queue: Queue,
        steps: &mut Steps<L>,
    ) -> Result<(), ParseError>
        requires sound { IsSoundParser (G.means graph.old).grammar.rules (kinds_of tokens.now) self.old }
        requires within { IsWithinLimit self.old }
        requires worked { IsWorked (G.means graph.old).grammar.rules (found self.old) queue.link queue.node }
        requires node { queue.node < length self.old.stacks.nodes }
        requires of_level { self.old.level.first_node ≤ queue.node }
        requires links { queue.link ≤ length self.old.stacks.links }
        ensures step { UnlessParseNoMemory result (IsStep (kinds_of tokens.now) self.old self.new (G.means graph.old) (G.means graph.new) steps.old steps.new) }
        ensures worked { OnOk result (IsWorked (G.means graph.old).grammar.rules (found self.new) queue.link (queue.node + 1)) }
        ensures within { OnOk result (IsWithinLimit self.new) }
        ensures above { IfErr result (IsAboveLimit self.new) }
        ensures stands { StandsButKernels (G.means graph.old) (G.means graph.new) }
        ensures never_back { steps.old ≤ steps.new }
    {
        self.trails.begin(NO_LINKS);
        let state = self.stacks.place(queue.node).state;
        for k in 0..self.states.empties(state).len() {
            let reduction = self.states.empties(state)[k];
            self.reduce(graph, tokens, reduction, queue.node, queue.node, steps)?;
        }
        Ok(())
    }

    /// Makes the reductions of the node whose trails go through the link, and through none behind it.
    fn reduce_node<G: Graph, L: Ledger>(
        &mut self,
        graph: &mut G,
        tokens: &[Token],
        node: u32,
        link: u32,
        steps: &mut Steps<L>,
    ) -> Result<(), ParseError>
        requires sound { IsSoundParser (G.means graph.old).grammar.rules (kinds_of tokens.now) self.old }
        requires within { IsWithinLimit self.old }
        requires node { node < length self.old.stacks.nodes }
        requires of_level { self.old.level.first_node ≤ node }
        requires link { IsOfLevel (found self.old) self.old.level.first_link link }
        requires fresh { IsAnyFresh (G.means graph.old).grammar.rules (found self.old) node link }
        ensures step { UnlessParseNoMemory result (IsStep (kinds_of tokens.now) self.old self.new (G.means graph.old) (G.means graph.new) steps.old steps.new) }
        ensures walked { OnOk result (IsNodeWalked (G.means graph.old).grammar.rules (found self.old) (found self.new) node link self.old.level.at) }
        ensures within { OnOk result (IsWithinLimit self.new) }
        ensures above { IfErr result (IsAboveLimit self.new) }
        ensures stands { StandsButKernels (G.means graph.old) (G.means graph.new) }
        ensures never_back { steps.old ≤ steps.new }
    {
        let state = self.stacks.place(node).state;
        let count = self.states.reductions(state).len();
        for k in 0..count {
            let reduction = self.states.reductions(state)[k];
            let walk = Walk {
                reduction,
                top: node,
                through: link,
            };
            self.walk_down(graph, tokens, walk, steps)?;
        }
        Ok(())
    }

    /// Makes the reductions whose trails go through the next link, and through none behind it. Where no link of the level
    /// leads down to a node of the level, they are those of its upper end.
    fn reduce_link<G: Graph, L: Ledger>(
        &mut self,
        graph: &mut G,
        tokens: &[Token],
        queue: Queue,
        steps: &mut Steps<L>,
    ) -> Result<(), ParseError>
        requires sound { IsSoundParser (G.means graph.old).grammar.rules (kinds_of tokens.now) self.old }
        requires within { IsWithinLimit self.old }
        requires worked { IsWorked (G.means graph.old).grammar.rules (found self.old) queue.link queue.node }
        requires nodes { queue.node ≡ length self.old.stacks.nodes }
        requires link { IsOfLevel (found self.old) self.old.level.first_link queue.link }
        ensures step { UnlessParseNoMemory result (IsStep (kinds_of tokens.now) self.old self.new (G.means graph.old) (G.means graph.new) steps.old steps.new) }
        ensures worked { OnOk result (IsWorked (G.means graph.old).grammar.rules (found self.new) (queue.link + 1) queue.node) }
        ensures within { OnOk result (IsWithinLimit self.new) }
        ensures above { IfErr result (IsAboveLimit self.new) }
        ensures stands { StandsButKernels (G.means graph.old) (G.means graph.new) }
        ensures never_back { steps.old ≤ steps.new }
    {
        if self.is_flat {
            let node = self.stacks.edge(queue.link).upper;
            self.reduce_node(graph, tokens, node, queue.link, steps)?;
            return Ok(());
        }
        for node in self.level.first_node..queue.node {
            self.reduce_node(graph, tokens, node, queue.link, steps)?;
        }
        Ok(())
    }

    /// Whether a node or a link of the queue is not worked.
    fn is_left(&self, queue: Queue) -> bool
        ensures { IsTrue result ↔ ((queue.node < length self.now.stacks.nodes) ⊎ (queue.link < length self.now.stacks.links)) }
    {
        if (queue.node as usize) < self.stacks.node_count() {
            return true;
        }
        if (queue.link as usize) < self.stacks.link_count() {
            return true;
        }
        false
    }

    /// Makes the reductions of the next node, or of the next link if there is none.
    fn reduce_next<G: Graph, L: Ledger>(
        &mut self,
        graph: &mut G,
        tokens: &[Token],
        queue: Queue,
        steps: &mut Steps<L>,
    ) -> Result<Queue, ParseError>
        requires sound { IsSoundParser (G.means graph.old).grammar.rules (kinds_of tokens.now) self.old }
        requires within { IsWithinLimit self.old }
        requires worked { IsWorked (G.means graph.old).grammar.rules (found self.old) queue.link queue.node }
        requires nodes { queue.node ≤ length self.old.stacks.nodes }
        requires links { queue.link ≤ length self.old.stacks.links }
        requires node_of_level { self.old.level.first_node ≤ queue.node }
        requires link_of_level { self.old.level.first_link ≤ queue.link }
        requires some { (queue.node < length self.old.stacks.nodes) ⊎ (queue.link < length self.old.stacks.links) }
        ensures step { UnlessParseNoMemory result (IsStep (kinds_of tokens.now) self.old self.new (G.means graph.old) (G.means graph.new) steps.old steps.new) }
        ensures worked { IfOk result (λ next. IsWorked (G.means graph.old).grammar.rules (found self.new) next.link next.node) }
        ensures next { IfOk result (GoesOn self.old queue) }
        ensures within { OnOk result (IsWithinLimit self.new) }
        ensures above { IfErr result (IsAboveLimit self.new) }
        ensures stands { StandsButKernels (G.means graph.old) (G.means graph.new) }
        ensures never_back { steps.old ≤ steps.new }
    {
        if (queue.node as usize) < self.stacks.node_count() {
            self.reduce_empties(graph, tokens, queue, steps)?;
            return Ok(Queue {
                node: queue.node + 1,
                link: queue.link,
            });
        }
        self.reduce_link(graph, tokens, queue, steps)?;
        Ok(Queue {
            node: queue.node,
            link: queue.link + 1,
        })
    }

    /// Makes all reductions of the level.
    pub(crate) fn reduce_level<G: Graph, L: Ledger>(
        &mut self,
        graph: &mut G,
        tokens: &[Token],
        steps: &mut Steps<L>,
    ) -> Result<(), ParseError>
        requires sound { IsSoundParser (G.means graph.old).grammar.rules (kinds_of tokens.now) self.old }
        requires within { IsWithinLimit self.old }
        requires worked { IsWorked (G.means graph.old).grammar.rules (found self.old) self.old.level.first_link self.old.level.first_node }
        ensures step { UnlessParseNoMemory result (IsStep (kinds_of tokens.now) self.old self.new (G.means graph.old) (G.means graph.new) steps.old steps.new) }
        ensures worked { OnOk result (IsWorked (G.means graph.old).grammar.rules (found self.new)
            (length self.new.stacks.links) (length self.new.stacks.nodes)) }
        ensures within { OnOk result (IsWithinLimit self.new) }
        ensures above { IfErr result (IsAboveLimit self.new) }
        ensures stands { StandsButKernels (G.means graph.old) (G.means graph.new) }
        ensures never_back { steps.old ≤ steps.new }
    {
        let mut queue = Queue {
            node: self.level.first_node,
            link: self.level.first_link,
        };
        'queue: while self.is_left(queue) {
            queue = self.reduce_next(graph, tokens, queue, steps)?;
        }
        Ok(())
    }
}
