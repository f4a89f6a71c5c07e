//! Reductions, each along one trail of links.

ghost use Rattle.std.specs.Prelude.{◌≡◌, ◌≤◌, ◌<◌, ◌+◌, ◌++◌, ◌∷◌, [], IfErr, IfSome, OnOk, ℕ, length, reverse, Contains};
ghost use Rattle.packed_spans.specs.Packed.{ArePartsOf};
ghost use Rattle.parser_states.specs.Asked.{StandsButKernels};
ghost use Rattle.rekers.specs.Answers.{kinds_of, UnlessParseNoMemory};
ghost use Rattle.rekers.specs.Found.{found, Grows};
ghost use Rattle.rekers.specs.Sound.{IsSoundParser};
ghost use Rattle.rekers.specs.Steps.{IsStep, IsToReduce, Reduces, HasFewNodes, IsWithinLimit, IsAboveLimit, labels_of, trail_of, IsLinkBy, IsUnlinked};

use crate::limits::SIZE_LIMIT;
use crate::parse_error::ParseError;
use crate::parser::Parser;
use forest::{RuleId, Token};
use gss::StackGraph;
use live_graph::{Graph, NoMemory};
use parser_states::Reduction;
use std::sync::ledger::Ledger;
use steps::Steps;

/// Puts the labels of the links into the buffer, the lowest first.
fn fill(stacks: &StackGraph, trail: &[u32], parts: &mut Vec<u32>) -> Result<(), NoMemory>
    requires { (link : ℕ) → Contains trail.now link → link < length stacks.now.links }
    ensures { OnOk result (parts.new.items ≡ labels_of stacks.now.links (reverse trail.now)) }
{
    parts.clear();
    let mut left = trail.len();
    'links: while left > 0 {
        left -= 1;
        parts.push(stacks.edge(trail[left]).label)?;
    }
    Ok(())
}

/// The label of the link, if it is one.
fn only_of(stacks: &StackGraph, trail: &[u32]) -> Option<[u32; 1]>
    requires { (link : ℕ) → Contains trail.now link → link < length stacks.now.links }
    ensures { IfSome result (λ labels. labels ≡ labels_of stacks.now.links (reverse trail.now)) }
{
    let [link] = trail else {
        return None;
    };
    Some([stacks.edge(*link).label])
}

/// The labels of the links, if they are two, the lower one first.
fn pair_of(stacks: &StackGraph, trail: &[u32]) -> Option<[u32; 2]>
    requires { (link : ℕ) → Contains trail.now link → link < length stacks.now.links }
    ensures { IfSome result (λ labels. labels ≡ labels_of stacks.now.links (reverse trail.now)) }
{
    let [upper, lower] = trail else {
        return None;
    };
    Some([stacks.edge(*lower).label, stacks.edge(*upper).label])
}

impl Parser {
    /// Refuses where there are more links and splits than a parse may have.
    pub(crate) fn check_size(&self) -> Result<(), ParseError>
        requires { HasFewNodes self.now }
        ensures within { OnOk result (IsWithinLimit self.now) }
        ensures above { IfErr result (IsAboveLimit self.now) }
    {
        let links = self.stacks.link_count();
        let count = links.saturating_add(self.spans.split_count());
        if count > SIZE_LIMIT as usize {
            return Err(ParseError::TooLarge {
                count: SIZE_LIMIT + 1,
            });
        }
        Ok(())
    }

    /// Adds the split of the trail to the span. More than one part go by way of the buffer.
    #[inline(never)]
    fn add_other_trail(&mut self, span: u32, rule: RuleId) -> Result<(), NoMemory>
        requires span { span < length self.old.spans.spans }
        requires links { (link : ℕ) → Contains self.old.trails.trail link → link < length self.old.stacks.links }
        requires parts { ArePartsOf self.old.spans.spans (labels_of self.old.stacks.links (trail_of self.old)) }
        ensures spans { OnOk result (self.new.spans.spans ≡ self.old.spans.spans) }
        ensures splits { OnOk result (self.new.spans.splits
            ≡ self.old.spans.splits ++ record { span = span; rule = rule; parts = labels_of self.old.stacks.links (trail_of self.old) } ∷ []) }
        ensures same { OnOk result (self.new ≡ record self.old { spans = self.new.spans; parts = self.new.parts }) }
    {
        if let Some(parts) = only_of(&self.stacks, self.trails.links()) {
            self.spans.add_split(span, rule, &parts)?;
            return Ok(());
        }
        fill(&self.stacks, self.trails.links(), &mut self.parts)?;
        self.spans.add_split(span, rule, &self.parts)?;
        Ok(())
    }

    /// Adds the split of the trail to the span. Two parts need no buffer.
    #[inline(always)]
    fn add_trail(&mut self, span: u32, rule: RuleId) -> Result<(), NoMemory>
        requires span { span < length self.old.spans.spans }
        requires links { (link : ℕ) → Contains self.old.trails.trail link → link < length self.old.stacks.links }
        requires parts { ArePartsOf self.old.spans.spans (labels_of self.old.stacks.links (trail_of self.old)) }
        ensures spans { OnOk result (self.new.spans.spans ≡ self.old.spans.spans) }
        ensures splits { OnOk result (self.new.spans.splits
            ≡ self.old.spans.splits ++ record { span = span; rule = rule; parts = labels_of self.old.stacks.links (trail_of self.old) } ∷ []) }
        ensures same { OnOk result (self.new ≡ record self.old { spans = self.new.spans; parts = self.new.parts }) }
    {
        if let Some(parts) = pair_of(&self.stacks, self.trails.links()) {
            self.spans.add_split(span, rule, &parts)?;
            return Ok(());
        }
        self.add_other_trail(span, rule)?;
        Ok(())
    }

    /// Adds the split of the trail to the span of the link, if the link made the span.
    #[inline(always)]
    fn split<G: Graph>(
        &mut self,
        _graph: &G,
        _tokens: &[Token],
        reduction: Reduction,
        link: u32,
        lower: u32,
        top: u32,
    ) -> Result<(), NoMemory>
        requires sound { IsSoundParser (G.means _graph.now).grammar.rules (kinds_of _tokens.now) self.old }
        requires link { IsLinkBy (found self.old) link lower reduction.left self.old.level.at }
        requires reduces { IsToReduce (G.means _graph.now).grammar.rules (found self.old) reduction lower (trail_of self.old) top self.old.level.at }
        ensures sound { OnOk result (IsSoundParser (G.means _graph.now).grammar.rules (kinds_of _tokens.now) self.new) }
        ensures grows { OnOk result (Grows (found self.old) (found self.new)) }
        ensures reduced { OnOk result (Reduces (G.means _graph.now).grammar.rules (found self.old)
            (found self.new) reduction lower (trail_of self.old) top self.old.level.at) }
        ensures same { OnOk result (self.new ≡ record self.old { spans = self.new.spans; parts = self.new.parts }) }
        ensures spans { OnOk result (self.new.spans.spans ≡ self.old.spans.spans) }
    {
        let span = self.stacks.edge(link).label;
        if self.owners[span as usize] != link {
            return Ok(());
        }
        self.add_trail(span, reduction.rule)?;
        Ok(())
    }

    /// Makes the reduction along the trail, whose link is not there.
    #[inline(never)]
    fn reduce_new<G: Graph, L: Ledger>(
        &mut self,
        graph: &mut G,
        tokens: &[Token],
        reduction: Reduction,
        lower: u32,
        top: u32,
        steps: &mut Steps<L>,
    ) -> Result<(), ParseError>
        requires sound { IsSoundParser (G.means graph.old).grammar.rules (kinds_of tokens.now) self.old }
        requires within { IsWithinLimit self.old }
        requires reduces { IsToReduce (G.means graph.old).grammar.rules (found self.old) reduction lower (trail_of self.old) top self.old.level.at }
        requires unlinked { IsUnlinked (found self.old) self.old.level.first_link lower reduction.left }
        ensures step { UnlessParseNoMemory result (IsStep (kinds_of tokens.now) self.old self.new (G.means graph.old) (G.means graph.new) steps.old steps.new) }
        ensures reduced { OnOk result (Reduces (G.means graph.old).grammar.rules (found self.old)
            (found self.new) reduction lower (trail_of self.old) top self.old.level.at) }
        ensures within { OnOk result (IsWithinLimit self.new) }
        ensures above { IfErr result (IsAboveLimit self.new) }
        ensures trail { OnOk result (self.new.trails ≡ self.old.trails) }
        ensures stands { StandsButKernels (G.means graph.old) (G.means graph.new) }
        ensures never_back { steps.old ≤ steps.new }
    {
        let link = self.new_link(graph, tokens, lower, reduction.left, steps)?;
        self.split(graph, tokens, reduction, link, lower, top)?;
        self.check_size()?;
        Ok(())
    }

    /// Makes the reduction along the trail, which leads from the node up to the top. Where its link is there, a split is all
    /// that may be new, and none is where another link made the span.
    #[inline(always)]
    pub(crate) fn reduce<G: Graph, L: Ledger>(
        &mut self,
        graph: &mut G,
        tokens: &[Token],
        reduction: Reduction,
        lower: u32,
        top: u32,
        steps: &mut Steps<L>,
    ) -> Result<(), ParseError>
        requires sound { IsSoundParser (G.means graph.old).grammar.rules (kinds_of tokens.now) self.old }
        requires within { IsWithinLimit self.old }
        requires reduces { IsToReduce (G.means graph.old).grammar.rules (found self.old) reduction lower (trail_of self.old) top self.old.level.at }
        ensures step { UnlessParseNoMemory result (IsStep (kinds_of tokens.now) self.old self.new (G.means graph.old) (G.means graph.new) steps.old steps.new) }
        ensures reduced { OnOk result (Reduces (G.means graph.old).grammar.rules (found self.old)
            (found self.new) reduction lower (trail_of self.old) top self.old.level.at) }
        ensures within { OnOk result (IsWithinLimit self.new) }
        ensures above { IfErr result (IsAboveLimit self.new) }
        ensures trail { OnOk result (self.new.trails ≡ self.old.trails) }
        ensures stands { StandsButKernels (G.means graph.old) (G.means graph.new) }
        ensures never_back { steps.old ≤ steps.new }
    {
        let Some(link) = self
            .stacks
            .link_above(lower, reduction.left, self.level.first_link)
        else {
            return self.reduce_new(graph, tokens, reduction, lower, top, steps);
        };
        let span = self.stacks.edge(link).label;
        if self.owners[span as usize] != link {
            return Ok(());
        }
        self.split(graph, tokens, reduction, link, lower, top)?;
        self.check_size()?;
        Ok(())
    }
}
