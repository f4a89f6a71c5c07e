//! The nodes of a forest.

ghost use Rattle.std.specs.Prelude.{◌≡◌, ◌<◌, IfOk, Contains, length, map};
ghost use Rattle.std.specs.List.Sorted.{IsStrictlySortedBy};
ghost use Rattle.forest.specs.Orders.{node_cmp};
ghost use Rattle.packed_spans.specs.declared.headers.Header.{Header};
ghost use Rattle.packed_spans.specs.Complete.{AreDifferent};
ghost use Rattle.packed_spans.specs.Tables.{IsTable, row_span};
ghost use Rattle.packed_spans.specs.Nodes.{IsNodeFor, AreNodesFor, AreNodesOf};

use crate::headers::{Header, headers_of};
use crate::marks::Marks;
use crate::splits::splits_of;
use crate::table::Table;
use forest::{NoMemory, Node};
use std::alloc::Global;

/// The node of a span.
fn node_of(alloc: Global, table: &Table, number: u32) -> Result<Node, NoMemory>
    requires table { IsTable table.now.spans.items table.now.splits.items table.now.parts.items }
    requires number { number < length table.now.spans.items }
    ensures { IfOk result (IsNodeFor table.now.spans.items table.now.splits.items table.now.parts.items number) }
{
    let span = table.spans[number as usize].span;
    let splits = splits_of(alloc, table, number)?;
    Ok(Node {
        symbol: span.symbol,
        from: span.from,
        to: span.to,
        splits,
    })
}

/// The nodes with these headers.
fn nodes_for(alloc: Global, table: &Table, headers: &[Header]) -> Result<Vec<Node>, NoMemory>
    requires table { IsTable table.now.spans.items table.now.splits.items table.now.parts.items }
    requires known { (header : Header) → Contains headers.now header → header.number < length table.now.spans.items }
    ensures { IfOk result (λ ns. AreNodesFor table.now.spans.items table.now.splits.items table.now.parts.items headers.now (length headers.now) ns.items) }
{
    let mut nodes = Vec::with_capacity(alloc, headers.len())?;
    for at in 0..headers.len() {
        nodes.push(node_of(alloc, table, headers[at].number)?)?;
    }
    Ok(nodes)
}

/// The nodes of the marked spans, in order.
pub(crate) fn nodes_of(alloc: Global, table: &Table, marks: &Marks) -> Result<Vec<Node>, NoMemory>
    requires table { IsTable table.now.spans.items table.now.splits.items table.now.parts.items }
    requires different { AreDifferent (map row_span table.now.spans.items) }
    requires size { length marks.now.marked.items ≡ length table.now.spans.items }
    ensures order { IfOk result (λ nodes. IsStrictlySortedBy node_cmp nodes.items) }
    ensures nodes { IfOk result (λ nodes. AreNodesOf table.now.spans.items table.now.splits.items table.now.parts.items marks.now.marked.items 0 nodes.items) }
{
    let headers = headers_of(alloc, table, marks)?;
    let nodes = nodes_for(alloc, table, headers.as_slice())?;
    Ok(nodes)
}
