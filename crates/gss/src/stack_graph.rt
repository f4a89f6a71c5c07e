//! Nodes and links by number.

ghost use Rattle.std.specs.Prelude.{◌≡◌, ◌-◌, ◌^◌, ◌<◌, [], ◌∷◌, ◌++◌, IfSome, IfNone, IfOk, OnOk, OnErr, Some, length, slice_get};
ghost use Rattle.gss.specs.Numbers.{IsLeast, IsGreatest, HasNone};
ghost use Rattle.gss.specs.PlaceGraphs.{place_with, edge_of, HasNode, IsOfState, LeadsDownFrom, LeadsToBy, LeadsFromSame, AreNodesDistinct, AreEndsNodes};

use crate::NoMemory;
use crate::rows::{LinkRow, NodeRow, add_edge, add_place, find_above, find_place, told};
use forest::SymbolId;
use std::alloc::Global;
use std::marker::Model;

/// A node: a state of the parser at a position of the text, the state by a number of the caller's.
#[derive(Clone, Copy, PartialEq, Eq, Debug)]
pub struct Place {
    /// The number of the state.
    pub state: u32,
    /// The position: how many tokens stand before it.
    pub at: u32,
}

/// A link from the upper node down to the lower one, which have these numbers. The label is a number of the caller's.
#[derive(Clone, Copy, PartialEq, Eq, Debug)]
pub struct Edge {
    /// The node that it leads down from.
    pub upper: u32,
    /// The symbol that was read between the two.
    pub symbol: SymbolId,
    /// The node that it leads down to.
    pub lower: u32,
    /// What the caller keeps beside the link.
    pub label: u32,
}

/// Nodes, and links between them, each known by its number in the order in which they were added. No two nodes have
/// the same state and position. All calls but `find_node` and `link_above` take constant time, and `link_above` goes
/// over the links down to one node.
#[derive(Drop)]
pub struct StackGraph {
    /// The nodes, by number.
    nodes: Vec<NodeRow>,
    /// The links, by number.
    links: Vec<LinkRow>,
    /// For each state its newest node.
    newest: Vec<u32>,
}

impl Model for StackGraph {
    ghost use Rattle.std.specs.Prelude.{◌≡◌};
    ghost use Rattle.gss.specs.PlaceGraphs.{PlaceGraph};
    ghost use Rattle.gss.specs.Rows.{places, edges, AreFound, AreLinked};

    ghost Value = { PlaceGraph };

    ghost view = { λ g. record { nodes = places g.nodes.items; links = edges g.links.items } };

    ghost invariant = { λ g. AreFound (places g.nodes.items) g.newest.items × AreLinked g.nodes.items g.links.items };
}

impl StackGraph {
    /// A graph of no nodes.
    pub fn new(alloc: Global) -> StackGraph
        ensures { result ≡ record { nodes = []; links = [] } }
    {
        StackGraph {
            nodes: Vec::new(alloc),
            links: Vec::new(alloc),
            newest: Vec::new(alloc),
        }
    }

    /// Takes all nodes and links away, and keeps their room for those to come.
    pub fn clear(&mut self)
        ensures { self.new ≡ record { nodes = []; links = [] } }
    {
        self.nodes.clear();
        self.links.clear();
        self.newest.clear();
    }

    pub fn node_count(&self) -> usize
        ensures { result ≡ length self.now.nodes }
    {
        self.nodes.len()
    }

    pub fn link_count(&self) -> usize
        ensures { result ≡ length self.now.links }
    {
        self.links.len()
    }

    /// What holds of every graph.
    pub fn is_sound(&self)
        ensures distinct { AreNodesDistinct self.now.nodes }
        ensures ends { AreEndsNodes self.now }
        ensures few_nodes { length self.now.nodes < 2 ^ 32 }
        ensures few_links { length self.now.links < 2 ^ 32 }
    {
        let _ = &self.nodes;
    }

    /// The node with this number.
    #[inline]
    pub fn place(&self, node: u32) -> Place
        requires { node < length self.now.nodes }
        ensures { slice_get self.now.nodes node ≡ Some result }
    {
        self.nodes[node as usize].place
    }

    /// The link with this number.
    #[inline]
    pub fn edge(&self, link: u32) -> Edge
        requires { link < length self.now.links }
        ensures { slice_get self.now.links link ≡ Some result }
    {
        self.links[link as usize].edge
    }

    /// The newest node of the state.
    #[inline]
    pub fn newest_node(&self, state: u32) -> Option<u32>
        ensures newest { IfSome result (IsGreatest (IsOfState self.now.nodes state)) }
        ensures none { IfNone result (HasNone (IsOfState self.now.nodes state)) }
    {
        let state = state as usize;
        if state >= self.newest.len() {
            return None;
        }
        told(self.newest[state])
    }

    /// The node of the state and position, by a search over all nodes.
    pub fn find_node(&self, state: u32, at: u32) -> Option<u32>
        ensures found { IfSome result (λ n. slice_get self.now.nodes n ≡ Some (place_with state at)) }
        ensures none { IfNone result (HasNode self.now.nodes state at → ⊥) }
    {
        find_place(&self.nodes, state, at)
    }

    /// Adds a node, and gives its number.
    pub fn add_node(&mut self, state: u32, at: u32) -> Result<u32, NoMemory>
        requires new { HasNode self.old.nodes state at → ⊥ }
        requires room { length self.old.nodes < 2 ^ 32 - 1 }
        ensures number { IfOk result (λ n. n ≡ length self.old.nodes) }
        ensures nodes { OnOk result (self.new.nodes ≡ self.old.nodes ++ place_with state at ∷ []) }
        ensures links { self.new.links ≡ self.old.links }
        ensures refused { OnErr result (self.new ≡ self.old) }
    {
        let place = Place { state, at };
        add_place(&mut self.nodes, &self.links, &mut self.newest, place)
    }

    /// The newest link down to the node by the symbol, if it is not before the link with the number `from`.
    #[inline]
    pub fn link_above(&self, lower: u32, symbol: SymbolId, from: u32) -> Option<u32>
        ensures newest { IfSome result (IsGreatest (LeadsToBy self.now.links lower symbol from)) }
        ensures none { IfNone result (HasNone (LeadsToBy self.now.links lower symbol from)) }
    {
        if lower as usize >= self.nodes.len() {
            return None;
        }
        let newest = self.nodes[lower as usize].above;
        find_above(&self.links, newest, symbol, from, lower)
    }

    /// The oldest link down from the node.
    #[inline]
    pub fn first_link(&self, node: u32) -> Option<u32>
        ensures first { IfSome result (IsLeast (LeadsDownFrom self.now.links node)) }
        ensures none { IfNone result (HasNone (LeadsDownFrom self.now.links node)) }
    {
        if node as usize >= self.nodes.len() {
            return None;
        }
        told(self.nodes[node as usize].first)
    }

    /// The next link down from the node that this one leads down from.
    #[inline]
    pub fn next_link(&self, link: u32) -> Option<u32>
        ensures next { IfSome result (IsLeast (LeadsFromSame self.now.links link)) }
        ensures none { IfNone result (HasNone (LeadsFromSame self.now.links link)) }
    {
        if link as usize >= self.links.len() {
            return None;
        }
        told(self.links[link as usize].next)
    }

    /// Adds a link, and gives its number.
    pub fn add_link(
        &mut self,
        upper: u32,
        symbol: SymbolId,
        lower: u32,
        label: u32,
    ) -> Result<u32, NoMemory>
        requires upper { upper < length self.old.nodes }
        requires lower { lower < length self.old.nodes }
        requires room { length self.old.links < 2 ^ 32 - 1 }
        ensures number { IfOk result (λ l. l ≡ length self.old.links) }
        ensures links { OnOk result (self.new.links ≡ self.old.links ++ edge_of upper symbol lower label ∷ []) }
        ensures nodes { self.new.nodes ≡ self.old.nodes }
        ensures refused { OnErr result (self.new ≡ self.old) }
    {
        let edge = Edge {
            upper,
            symbol,
            lower,
            label,
        };
        add_edge(&mut self.nodes, &mut self.links, edge)
    }
}
