//! The shared packed forest of a text, and how a node of it is found.

ghost use Rattle.std.specs.Prelude.{◌≡◌, IfSome, IfNone, Contains, sum_by, length};
ghost use Rattle.std.specs.List.Sorted.{IsStrictlySortedBy};
ghost use Rattle.std.proofs.lemmas.Map.Keys.{IsStrictlySortedBy-prop};
ghost use Rattle.forest.specs.Orders.{span_cmp, node_cmp};
ghost use Rattle.forest.specs.declared.nodes.Node.{Node};
ghost use Rattle.forest.specs.Nodes.{IsAt, IsPosition};

use crate::nodes::{Node, Nodes};
use crate::symbols::SymbolId;
use std::cmp::Ordering;

/// A shared packed forest, after Rekers: one node for each span, whatever the number of ways to
/// derive it, ascending by `from`, then `to`, then `symbol`.
#[derive(PartialEq, Eq, Debug, Drop)]
pub struct Forest {
    /// The nodes in this order, so that no span comes twice.
    pub nodes: Nodes,
    pub ghost ascending: { IsStrictlySortedBy node_cmp nodes } by { IsStrictlySortedBy-prop node_cmp nodes },
}

impl Forest {
    /// The node of a span, by binary search.
    pub fn get(&self, symbol: SymbolId, from: u32, to: u32) -> Option<&Node>
        ensures found { IfSome result (λ node. Contains self.now.nodes node.now × IsAt node.now symbol from to) }
        ensures none { IfNone result ((node : Node) → Contains self.now.nodes node → IsAt node symbol from to → ⊥) }
    {
        let nodes = self.nodes.as_slice();
        let at = position_of(nodes, symbol, from, to)?;
        Some(&nodes[at])
    }

    /// How many splits the nodes have together.
    pub fn count_splits(&self) -> u128
        ensures { result ≡ sum_by (λ node. length node.splits) self.now.nodes }
    {
        let mut count = 0;
        for node in self.nodes.as_slice() {
            count += node.splits.as_slice().len() as u128;
        }
        count
    }
}

/// How the node stands to a span.
fn compare(node: &Node, symbol: SymbolId, from: u32, to: u32) -> Ordering
    ensures { result ≡ span_cmp node.now symbol from to }
{
    let ends = node.from.cmp(&from).then(node.to.cmp(&to));
    ends.then(node.symbol.cmp(&symbol))
}

/// The place of the span's node among nodes that ascend.
fn position_of(nodes: &[Node], symbol: SymbolId, from: u32, to: u32) -> Option<usize>
    requires { IsStrictlySortedBy node_cmp nodes.now }
    ensures found { IfSome result (λ at. IsPosition nodes.now symbol from to at) }
    ensures none { IfNone result ((node : Node) → Contains nodes.now node → IsAt node symbol from to → ⊥) }
{
    nodes
        .binary_search_by(|node| compare(node, symbol, from, to))
        .ok()
}
