//! Walks over trails, which are links one after the other down from a top node.

ghost use Rattle.std.specs.Prelude.{◌≡◌, ◌<◌, ◌≤◌, ℕ, List, false, [], ◌∷◌, IfSome, IfNone, IfOk, OnOk, IsTrue};
ghost use Rattle.gss.specs.declared.stack_graph.Edge.{Edge};
ghost use Rattle.gss.specs.Numbers.{IsLeast};
ghost use Rattle.gss.specs.PlaceGraphs.{LeadsDownFrom, LeadsFromSame};
ghost use Rattle.gss.specs.Trails.{LeadsDown, PassesLink, IsPartOfTrail, IsOn, IsNextTrail, IsAtEnd};
ghost use Rattle.gss.specs.Descents.{IsMetAfter, GoesTo, TurnsTo, FindsTrail};

use crate::NoMemory;
use crate::part::Part;
use crate::stack_graph::StackGraph;
use std::alloc::Global;
use std::marker::Model;

/// Which trails a walk is for.
#[derive(Clone, Copy, PartialEq, Eq, Debug)]
pub struct Walk {
    /// The node that they lead down from.
    pub top: u32,
    /// How many links each has.
    pub length: u32,
    /// The newest link that they may have.
    pub last: u32,
    /// The link that they go through, if one is named.
    pub through: Option<u32>,
    /// The lowest node from which they go on before they have gone through the named link.
    pub floor: u32,
}

/// The trails of a walk, one after the other, each once: oldest links first, at the top before below. All lie in one
/// buffer, which keeps its memory from walk to walk.
///
/// Links that are added meanwhile behind the last one change nothing. After a call that was refused the walk has to
/// begin anew.
#[derive(Drop)]
pub struct Trails {
    /// Which trails these are.
    walk: Walk,
    /// Whether the walk has come to a trail, or has found none.
    is_begun: bool,
    /// The links of the trail, or of the part that the walk begins with.
    part: Part,
}

impl Model for Trails {
    ghost use Rattle.gss.specs.Trails.{Standing};
    ghost use Rattle.gss.specs.Descents.{IsMetAfter};

    ghost Value = { Standing };

    ghost view = { λ t. record { walk = t.walk; is_begun = t.is_begun; trail = t.part.links.items } };

    ghost invariant = { λ t. IsMetAfter t.walk.through t.part.links.items t.part.met };
}

/// The next link down from the same node, unless it is behind the last one.
#[inline(always)]
fn next_until(graph: &StackGraph, link: u32, last: u32) -> Option<u32>
    ensures next { IfSome result (λ next. IsLeast (LeadsFromSame graph.now.links link) next × (next ≤ last)) }
    ensures none { IfNone result ((other : ℕ) → LeadsFromSame graph.now.links link other → last < other) }
{
    let Some(next) = graph.next_link(link) else {
        return None;
    };
    if next > last {
        return None;
    }
    Some(next)
}

/// The oldest link down from the node, unless it is behind the last one.
#[inline(always)]
fn first_until(graph: &StackGraph, node: u32, last: u32) -> Option<u32>
    ensures first { IfSome result (λ first. IsLeast (LeadsDownFrom graph.now.links node) first × (first ≤ last)) }
    ensures none { IfNone result ((other : ℕ) → LeadsDownFrom graph.now.links node other → last < other) }
{
    let Some(first) = graph.first_link(node) else {
        return None;
    };
    if first > last {
        return None;
    }
    Some(first)
}

/// The node that the links lead down to.
#[inline(always)]
fn end_of(graph: &StackGraph, walk: Walk, links: &[u32]) -> u32
    requires { IsPartOfTrail graph.now.links walk links.now }
    ensures { LeadsDown graph.now.links walk.last walk.top links.now result }
{
    let count = links.len();
    if count == 0 {
        return walk.top;
    }
    graph.edge(links[count - 1]).lower
}

/// Whether no trail of the walk goes on from the node: it is below the floor, and the part has not met the named link.
#[inline(always)]
fn is_below(part: &Part, walk: Walk, node: u32) -> bool
    requires { IsMetAfter walk.through part.now.links.items part.now.met }
    ensures below { IsTrue result → (node < walk.floor) × (PassesLink walk.through part.now.links.items → ⊥) }
    ensures above { result ≡ false → (PassesLink walk.through part.now.links.items → ⊥) → walk.floor ≤ node }
{
    if part.passes(walk.through) {
        return false;
    }
    node < walk.floor
}

/// Goes down by the oldest links. Whether this made a trail of the walk.
#[inline(always)]
fn go_down(graph: &StackGraph, part: &mut Part, walk: Walk) -> Result<bool, NoMemory>
    requires part { IsPartOfTrail graph.now.links walk part.old.links.items }
    requires met { IsMetAfter walk.through part.old.links.items part.old.met }
    ensures goes { IfOk result (GoesTo graph.now.links walk part.old.links.items part.new.links.items) }
    ensures met { IsMetAfter walk.through part.new.links.items part.new.met }
{
    'down: while part.links.len() < walk.length as usize {
        let node = end_of(graph, walk, &part.links);
        if is_below(part, walk, node) {
            return Ok(false);
        }
        let Some(link) = first_until(graph, node, walk.last) else {
            return Ok(false);
        };
        part.put(walk.through, link)?;
    }
    Ok(part.passes(walk.through))
}

/// Goes up to the lowest link that has a newer one beside it, and takes that one in its place. Whether there is one.
#[inline(always)]
fn turn(graph: &StackGraph, part: &mut Part, walk: Walk) -> Result<bool, NoMemory>
    requires part { IsPartOfTrail graph.now.links walk part.old.links.items }
    requires met { IsMetAfter walk.through part.old.links.items part.old.met }
    ensures part { OnOk result (IsPartOfTrail graph.now.links walk part.new.links.items) }
    ensures turns { IfOk result (TurnsTo graph.now.links walk part.old.links.items part.new.links.items) }
    ensures met { IsMetAfter walk.through part.new.links.items part.new.met }
{
    'up: while let Some(link) = part.links.pop() {
        if let Some(next) = next_until(graph, link, walk.last) {
            part.put(walk.through, next)?;
            return Ok(true);
        }
    }
    Ok(false)
}

/// Finds the first trail from this part on. Whether there is one.
#[inline(always)]
fn find(graph: &StackGraph, part: &mut Part, walk: Walk) -> Result<bool, NoMemory>
    requires part { IsPartOfTrail graph.now.links walk part.old.links.items }
    requires met { IsMetAfter walk.through part.old.links.items part.old.met }
    ensures part { OnOk result (IsPartOfTrail graph.now.links walk part.new.links.items) }
    ensures finds { IfOk result (FindsTrail graph.now.links walk part.old.links.items part.new.links.items) }
    ensures met { IsMetAfter walk.through part.new.links.items part.new.met }
{
    let mut is_whole = go_down(graph, part, walk)?;
    'turns: while !is_whole {
        let turns = turn(graph, part, walk)?;
        if !turns {
            return Ok(false);
        }
        is_whole = go_down(graph, part, walk)?;
    }
    Ok(true)
}

impl Trails {
    /// A buffer for walks, with one that has not begun.
    pub fn new(alloc: Global, walk: Walk) -> Trails
        ensures is { result ≡ record { walk = walk; is_begun = false; trail = [] } }
        ensures on { (links : List Edge) → IsOn links result }
    {
        Trails {
            walk,
            is_begun: false,
            part: Part::new(alloc, walk.through),
        }
    }

    /// Another walk in the same buffer.
    pub fn begin(&mut self, walk: Walk)
        ensures is { self.new ≡ record { walk = walk; is_begun = false; trail = [] } }
        ensures on { (links : List Edge) → IsOn links self.new }
    {
        self.walk = walk;
        self.is_begun = false;
        self.part.clear(walk.through);
    }

    /// Another walk in the same buffer, which leaves out all trails before those that begin with the link.
    pub fn begin_with(&mut self, walk: Walk, link: u32) -> Result<(), NoMemory>
        ensures { OnOk result (self.new ≡ record { walk = walk; is_begun = false; trail = link ∷ [] }) }
    {
        self.begin(walk);
        self.part.put(walk.through, link)?;
        Ok(())
    }

    /// Goes on to the next trail. Whether there is one.
    pub fn next(&mut self, graph: &StackGraph) -> Result<bool, NoMemory>
        requires { IsOn graph.now.links self.old }
        ensures walk { self.new.walk ≡ self.old.walk }
        ensures begun { IsTrue self.new.is_begun }
        ensures on { OnOk result (IsOn graph.now.links self.new) }
        ensures next { IfOk result (λ found. IsTrue found → IsNextTrail graph.now.links self.old self.new.trail) }
        ensures end { IfOk result (λ found. found ≡ false → IsAtEnd graph.now.links self.old) }
    {
        if !self.is_begun {
            self.is_begun = true;
            let found = find(graph, &mut self.part, self.walk)?;
            return Ok(found);
        }
        let turns = turn(graph, &mut self.part, self.walk)?;
        if !turns {
            return Ok(false);
        }
        let found = find(graph, &mut self.part, self.walk)?;
        Ok(found)
    }

    /// The links of the trail, the upper one first.
    #[inline]
    pub fn links(&self) -> &[u32]
        ensures { result.now ≡ self.now.trail }
    {
        &self.part.links
    }

    /// The node that the trail leads down to.
    #[inline]
    pub fn end(&self, graph: &StackGraph) -> u32
        requires { IsOn graph.now.links self.now }
        ensures { LeadsDown graph.now.links self.now.walk.last self.now.walk.top self.now.trail result }
    {
        end_of(graph, self.walk, &self.part.links)
    }
}
