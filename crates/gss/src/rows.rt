//! Nodes and links with what is kept beside them, so that each search takes constant time.

ghost use Rattle.std.specs.Prelude.{◌≡◌, ◌-◌, ◌^◌, ◌<◌, ◌⊎◌, ℕ, List, [], ◌∷◌, ◌++◌, IfSome, IfNone, IfOk, OnOk, OnErr, Some, length, slice_get};
ghost use Rattle.gss.specs.declared.stack_graph.Place.{Place};
ghost use Rattle.gss.specs.Numbers.{IsGreatest, HasNone};
ghost use Rattle.gss.specs.PlaceGraphs.{HasNode, LeadsToBy, place_with};
ghost use Rattle.gss.specs.Chains.{none, IsKeyAt, TellsGreatest, AreOlders};
ghost use Rattle.gss.specs.Rows.{last_links, edges, lowers, olders, places, AreFound, AreLinked, PutsAbove, PutsLast, PutsFirst, PutsNext, PutsBelow};

use crate::NoMemory;
use crate::stack_graph::{Edge, Place};
use forest::SymbolId;

/// The number of no node and of no link.
pub(crate) const NONE: u32 = u32::MAX;

/// A node with the ends of its lists of links: of those down from it, oldest first, and of those down to it,
/// newest first.
#[derive(Clone, Copy)]
pub(crate) struct NodeRow {
    /// The state and the position.
    pub(crate) place: Place,
    /// The oldest link down from the node, or `NONE`.
    pub(crate) first: u32,
    /// The newest link down from the node, or `NONE`.
    pub(crate) last: u32,
    /// The newest link down to the node, or `NONE`.
    pub(crate) above: u32,
}

/// A link with the next one down from its upper node, and the one before it down to its lower node.
#[derive(Clone, Copy)]
pub(crate) struct LinkRow {
    /// The ends, the symbol and the label.
    pub(crate) edge: Edge,
    /// The next newer link down from the same upper node, or `NONE`.
    pub(crate) next: u32,
    /// The next older link down to the same lower node, or `NONE`.
    pub(crate) older: u32,
}

/// The number, if it is one.
pub(crate) fn told(number: u32) -> Option<u32>
    ensures some { IfSome result (λ n. (n ≡ number) × (n < none)) }
    ensures none { IfNone result (number ≡ none) }
{
    if number == NONE {
        return None;
    }
    Some(number)
}

/// Room for the newest node of the state, none as yet.
pub(crate) fn make_room(newest: &mut Vec<u32>, state: u32) -> Result<(), NoMemory>
    ensures found { (nodes : List Place) → AreFound nodes newest.old.items → AreFound nodes newest.new.items }
    ensures room { OnOk result (state < length newest.new.items) }
{
    let size = state as usize + 1;
    if newest.len() < size {
        newest.resize(size, NONE)?;
    }
    Ok(())
}

fn put_above(nodes: &mut Vec<NodeRow>, node: u32, link: u32)
    requires { node < length nodes.old.items }
    ensures { PutsAbove nodes.old.items nodes.new.items node link }
{
    nodes[node as usize].above = link;
}

fn put_last(nodes: &mut Vec<NodeRow>, node: u32, link: u32)
    requires { node < length nodes.old.items }
    ensures { PutsLast nodes.old.items nodes.new.items node link }
{
    nodes[node as usize].last = link;
}

fn put_first(nodes: &mut Vec<NodeRow>, node: u32, link: u32)
    requires { node < length nodes.old.items }
    ensures { PutsFirst nodes.old.items nodes.new.items node link }
{
    nodes[node as usize].first = link;
}

fn put_next(links: &mut Vec<LinkRow>, before: u32, link: u32)
    requires { before < length links.old.items }
    ensures { PutsNext links.old.items links.new.items before link }
{
    links[before as usize].next = link;
}

/// Puts the link at the end of the list of those down from the node.
fn put_below(nodes: &mut Vec<NodeRow>, links: &mut Vec<LinkRow>, node: u32, link: u32)
    requires node { node < length nodes.old.items }
    requires last { (last : ℕ) → slice_get (last_links nodes.old.items) node ≡ Some last → (last ≡ none) ⊎ (last < length links.old.items) }
    ensures { PutsBelow nodes.old.items nodes.new.items links.old.items links.new.items node link }
{
    let last = nodes[node as usize].last;
    put_last(nodes, node, link);
    if last == NONE {
        put_first(nodes, node, link);
        return;
    }
    put_next(links, last, link);
}

/// Adds a link to both of its lists.
pub(crate) fn add_edge(
    nodes: &mut Vec<NodeRow>,
    links: &mut Vec<LinkRow>,
    edge: Edge,
) -> Result<u32, NoMemory>
    requires upper { edge.upper < length nodes.old.items }
    requires lower { edge.lower < length nodes.old.items }
    requires room { length links.old.items < 2 ^ 32 - 1 }
    requires linked { AreLinked nodes.old.items links.old.items }
    ensures number { IfOk result (λ link. link ≡ length links.old.items) }
    ensures edges { OnOk result (edges links.new.items ≡ edges links.old.items ++ edge ∷ []) }
    ensures places { places nodes.new.items ≡ places nodes.old.items }
    ensures linked { AreLinked nodes.new.items links.new.items }
    ensures refused { OnErr result (edges links.new.items ≡ edges links.old.items) }
{
    let link = links.len() as u32;
    let older = nodes[edge.lower as usize].above;
    links.push(LinkRow {
        edge,
        next: NONE,
        older,
    })?;
    put_above(nodes, edge.lower, link);
    put_below(nodes, links, edge.upper, link);
    Ok(link)
}

/// Adds a node without links.
pub(crate) fn add_place(
    nodes: &mut Vec<NodeRow>,
    links: &[LinkRow],
    newest: &mut Vec<u32>,
    place: Place,
) -> Result<u32, NoMemory>
    requires new { HasNode (places nodes.old.items) place.state place.at → ⊥ }
    requires room { length nodes.old.items < 2 ^ 32 - 1 }
    requires found { AreFound (places nodes.old.items) newest.old.items }
    requires linked { AreLinked nodes.old.items links.now }
    ensures number { IfOk result (λ node. node ≡ length nodes.old.items) }
    ensures places { OnOk result (places nodes.new.items ≡ places nodes.old.items ++ place ∷ []) }
    ensures found { AreFound (places nodes.new.items) newest.new.items }
    ensures linked { AreLinked nodes.new.items links.now }
    ensures refused { OnErr result (places nodes.new.items ≡ places nodes.old.items) }
{
    let node = nodes.len() as u32;
    make_room(newest, place.state)?;
    nodes.push(NodeRow {
        place,
        first: NONE,
        last: NONE,
        above: NONE,
    })?;
    newest[place.state as usize] = node;
    Ok(node)
}

/// The number of the node of the state and position.
pub(crate) fn find_place(nodes: &[NodeRow], state: u32, at: u32) -> Option<u32>
    requires { length nodes.now < 2 ^ 32 }
    ensures found { IfSome result (λ n. slice_get (places nodes.now) n ≡ Some (place_with state at)) }
    ensures none { IfNone result (HasNode (places nodes.now) state at → ⊥) }
{
    for (number, row) in nodes.iter().enumerate() {
        if row.place.at == at && row.place.state == state {
            return Some(number as u32);
        }
    }
    None
}

/// The newest of a list of links down to a node, from this one to that one, which is by the symbol.
pub(crate) fn find_above(
    links: &[LinkRow],
    newest: u32,
    symbol: SymbolId,
    from: u32,
    _lower: u32,
) -> Option<u32>
    requires older { AreOlders (lowers (edges links.now)) (olders links.now) }
    requires newest { TellsGreatest (IsKeyAt (lowers (edges links.now)) _lower) newest }
    ensures newest { IfSome result (IsGreatest (LeadsToBy (edges links.now) _lower symbol from)) }
    ensures none { IfNone result (HasNone (LeadsToBy (edges links.now) _lower symbol from)) }
{
    let mut link = newest;
    'older: while link != NONE && from <= link {
        let row = links[link as usize];
        if row.edge.symbol.0 == symbol.0 {
            return Some(link);
        }
        link = row.older;
    }
    None
}
