//! Stacks by kernels.

ghost use Rattle.std.specs.Prelude.{◌≡◌, ◌-◌, ◌^◌, ◌<◌, [], Contains, IfSome, IfNone, IfOk, OnOk, OnErr, Some, length, slice_get};
ghost use Rattle.gss.specs.KernelGraphs.{kernel_at, link_of, IsAdded, IsThere, IsNumberIn};
ghost use Rattle.forest.specs.Distinct.{AreAll};
ghost use Rattle.gss.specs.Paths.{IsPathOf};
ghost use Rattle.forest.specs.Numbers.{KeepsNumbers};
ghost use Rattle.gss.specs.Views.{nodes_in, links_in, IsEdge, AreKernelsDistinct, AreNumbered};

use crate::NoMemory;
use crate::paths::{Path, paths_through};
use crate::stack_graph::StackGraph;
use forest::SymbolId;
use indexmap::IndexSet;
use item_sets::Kernel;
use std::alloc::{AllocError, Global};
use std::marker::Model;

/// The number of a node.
#[derive(Clone, Copy, PartialEq, Eq, PartialOrd, Ord, Hash, Debug)]
pub struct NodeId(pub u32);

/// The number of a link.
#[derive(Clone, Copy, PartialEq, Eq, PartialOrd, Ord, Hash, Debug)]
pub struct LinkId(pub u32);

/// Nodes, each a kernel at a position, and links between them, each known by its number in the order in which they
/// were added. None comes twice.
#[derive(Drop)]
pub struct Stacks {
    /// Their places are the states of the graph.
    kernels: IndexSet<Kernel>,
    /// The same nodes and links, with the numbers of kernels for states.
    graph: StackGraph,
    /// Where the memory of paths is taken from.
    alloc: Global,
}

impl Model for Stacks {
    ghost use Rattle.gss.specs.KernelGraphs.{KernelGraph};
    ghost use Rattle.gss.specs.Views.{nodes_in, links_in, AreNumbered};

    ghost Value = { KernelGraph };

    ghost view = { λ s. record { nodes = nodes_in s.kernels.keys s.graph.nodes; links = links_in s.graph.links } };

    ghost invariant = { λ s. AreNumbered s.kernels.keys s.graph.nodes };
}

/// The place as a number of 32 bits. Nobody has the memory for more kernels than there are such numbers.
fn number_of(place: usize) -> Result<u32, NoMemory>
    ensures { IfOk result (λ number. number ≡ place) }
{
    match u32::try_from(place) {
        Ok(number) => Ok(number),
        Err(_) => Err(AllocError),
    }
}

/// The number of the kernel, which gets the next one if it has none.
fn kernel_number(kernels: &mut IndexSet<Kernel>, kernel: &Kernel) -> Result<u32, NoMemory>
    requires distinct { AreKernelsDistinct kernels.old.keys }
    ensures there { IfOk result (λ n. slice_get kernels.new.keys n ≡ Some kernel.now) }
    ensures distinct { AreKernelsDistinct kernels.new.keys }
    ensures keeps { KeepsNumbers kernels.old.keys kernels.new.keys }
{
    if let Some(place) = kernels.get_index_of(kernel) {
        return number_of(place);
    }
    let number = number_of(kernels.len())?;
    let own = kernel.clone()?;
    kernels.insert(own)?;
    Ok(number)
}

/// The number of the node of the kernel and position, which is added if there is none.
fn node_number(
    kernels: &mut IndexSet<Kernel>,
    graph: &mut StackGraph,
    kernel: &Kernel,
    at: u32,
) -> Result<u32, NoMemory>
    requires numbered { AreNumbered kernels.old.keys graph.old.nodes }
    requires room { length graph.old.nodes < 2 ^ 32 - 1 }
    ensures numbered { AreNumbered kernels.new.keys graph.new.nodes }
    ensures there { IfOk result (λ n. slice_get (nodes_in kernels.new.keys graph.new.nodes) n ≡ Some (kernel_at kernel.now at)) }
    ensures nodes { OnOk result (IsThere (nodes_in kernels.old.keys graph.old.nodes) (nodes_in kernels.new.keys graph.new.nodes) (kernel_at kernel.now at)) }
    ensures links { graph.new.links ≡ graph.old.links }
    ensures refused { OnErr result (nodes_in kernels.new.keys graph.new.nodes ≡ nodes_in kernels.old.keys graph.old.nodes) }
{
    let state = kernel_number(kernels, kernel)?;
    if let Some(node) = graph.find_node(state, at) {
        return Ok(node);
    }
    let node = graph.add_node(state, at)?;
    Ok(node)
}

/// The number of the link between these nodes by the symbol.
fn find_link(graph: &StackGraph, upper: u32, symbol: SymbolId, lower: u32) -> Option<u32>
    ensures found { IfSome result (IsEdge graph.now.links (link_of upper symbol lower)) }
    ensures none { IfNone result (Contains (links_in graph.now.links) (link_of upper symbol lower) → ⊥) }
{
    let mut next = graph.first_link(upper);
    'links: while let Some(link) = next {
        let edge = graph.edge(link);
        if edge.lower == lower && edge.symbol.0 == symbol.0 {
            return Some(link);
        }
        next = graph.next_link(link);
    }
    None
}

impl Stacks {
    /// Stacks of no nodes.
    pub fn new(alloc: Global) -> Result<Stacks, NoMemory>
        ensures { IfOk result (λ stacks. stacks ≡ record { nodes = []; links = [] }) }
    {
        Ok(Stacks {
            kernels: IndexSet::new(alloc),
            graph: StackGraph::new(alloc),
            alloc,
        })
    }

    pub fn node_count(&self) -> usize
        ensures { result ≡ length self.now.nodes }
    {
        self.graph.node_count()
    }

    pub fn link_count(&self) -> usize
        ensures { result ≡ length self.now.links }
    {
        self.graph.link_count()
    }

    /// The one node of the kernel and position.
    pub fn node(&mut self, kernel: &Kernel, at: u32) -> Result<NodeId, NoMemory>
        requires nodes { length self.old.nodes < 2 ^ 32 - 1 }
        requires links { length self.old.links < 2 ^ 32 - 1 }
        ensures there { IfOk result (λ n. slice_get self.new.nodes n.0 ≡ Some (kernel_at kernel.now at)) }
        ensures nodes { OnOk result (IsThere self.old.nodes self.new.nodes (kernel_at kernel.now at)) }
        ensures links { self.new.links ≡ self.old.links }
        ensures refused { OnErr result (self.new ≡ self.old) }
    {
        let node = node_number(&mut self.kernels, &mut self.graph, kernel, at)?;
        Ok(NodeId(node))
    }

    /// The link, and whether it is new.
    pub fn add_link(
        &mut self,
        upper: NodeId,
        symbol: SymbolId,
        lower: NodeId,
    ) -> Result<(LinkId, bool), NoMemory>
        requires upper { upper.0 < length self.old.nodes }
        requires lower { lower.0 < length self.old.nodes }
        requires nodes { length self.old.nodes < 2 ^ 32 - 1 }
        requires links { length self.old.links < 2 ^ 32 - 1 }
        ensures there { IfOk result (λ r. slice_get self.new.links r.0.0 ≡ Some (link_of upper.0 symbol lower.0)) }
        ensures links { IfOk result (λ r. IsAdded self.old.links self.new.links (link_of upper.0 symbol lower.0) r.1) }
        ensures nodes { self.new.nodes ≡ self.old.nodes }
        ensures refused { OnErr result (self.new ≡ self.old) }
    {
        if let Some(link) = find_link(&self.graph, upper.0, symbol, lower.0) {
            return Ok((LinkId(link), false));
        }
        let link = self.graph.add_link(upper.0, symbol, lower.0, 0)?;
        Ok((LinkId(link), true))
    }

    /// Each path of so many links down from the node, once, through the link if one is named. Links with different
    /// symbols between the same two nodes give one path, which goes through each of them.
    pub fn paths(
        &self,
        node: NodeId,
        length: u32,
        through: Option<LinkId>,
    ) -> Result<Vec<Path>, NoMemory>
        requires node { IsNumberIn self.now.nodes node.0 }
        requires through { IfSome through (λ l. IsNumberIn self.now.links l.0) }
        ensures { IfOk result (λ paths. AreAll (IsPathOf self.now.links node length through) paths.items) }
    {
        paths_through(self.alloc, &self.graph, node, length, through)
    }
}
