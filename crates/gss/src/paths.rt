//! Paths of links downwards.

ghost use Rattle.std.specs.Prelude.{◌≡◌, ◌<◌, ℕ, Contains, IfSome, IfOk, OnOk, length};
ghost use Rattle.forest.specs.Distinct.{AreAll};
ghost use Rattle.gss.specs.Paths.{IsPathOf};
ghost use Rattle.gss.specs.Views.{links_in, path_along, walk_of, AddsNew};

use crate::NoMemory;
use crate::stack_graph::StackGraph;
use crate::stacks::{LinkId, NodeId};
use crate::trails::{Trails, Walk};
use lists::ListOf;
use std::alloc::Global;

/// Nodes that stand below each other, from the upper one on.
#[derive(PartialEq, Eq, Debug, Drop)]
pub struct Path {
    /// The nodes, the upper one first.
    pub nodes: ListOf<NodeId>,
}

/// The walk over the trails of the paths. None of a graph's links is behind its last one.
fn walk_for(node: NodeId, count: u32, through: Option<LinkId>) -> Walk
    ensures { result ≡ walk_of node count through }
{
    Walk {
        top: node.0,
        length: count,
        last: u32::MAX,
        through: match through {
            Some(link) => Some(link.0),
            None => None,
        },
        floor: 0,
    }
}

/// The nodes that the trail leads over.
fn path_of(alloc: Global, graph: &StackGraph, node: NodeId, trail: &[u32]) -> Result<Path, NoMemory>
    requires { (link : ℕ) → Contains trail.now link → link < length graph.now.links }
    ensures { IfOk result (λ path. path ≡ path_along graph.now.links node trail.now) }
{
    let mut nodes = Vec::new(alloc);
    nodes.push(node)?;
    for link in trail {
        nodes.push(NodeId(graph.edge(*link).lower))?;
    }
    Ok(Path {
        nodes: ListOf::from_vec(nodes),
    })
}

/// Adds the path unless it is there.
fn add_new(found: &mut Vec<Path>, path: Path) -> Result<(), NoMemory>
    ensures { OnOk result (AddsNew found.old.items found.new.items path) }
{
    if !found.contains(&path) {
        found.push(path)?;
    }
    Ok(())
}

/// Each path of so many links down from the node, once, through the link if one is named: a walk made into a list. Trails
/// by different links between the same nodes give one path.
pub(crate) fn paths_through(
    alloc: Global,
    graph: &StackGraph,
    node: NodeId,
    count: u32,
    through: Option<LinkId>,
) -> Result<Vec<Path>, NoMemory>
    requires { IfSome through (λ l. l.0 < length graph.now.links) }
    ensures { IfOk result (λ found. AreAll (IsPathOf (links_in graph.now.links) node count through) found.items) }
{
    graph.is_sound();
    let mut trails = Trails::new(alloc, walk_for(node, count, through));
    let mut found = Vec::new(alloc);
    let mut is_more = trails.next(graph)?;
    'trails: while is_more {
        let path = path_of(alloc, graph, node, trails.links())?;
        add_new(&mut found, path)?;
        is_more = trails.next(graph)?;
    }
    Ok(found)
}
