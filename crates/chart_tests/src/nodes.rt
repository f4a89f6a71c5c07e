//! A forest that is made by hand, and what is found in it.

ghost use Rattle.std.specs.Prelude.{◌≡◌};

use forest::{Cuts, Forest, Node, Nodes, RuleId, Split, Splits, SymbolId};
use std::alloc::{AllocError, Global};

fn split(alloc: Global, rule: u32, cuts: &[u32]) -> Result<Split, AllocError> {
    Ok(Split {
        rule: RuleId(rule),
        cuts: Cuts::from_vec(cuts.to_vec(alloc)?),
    })
}

fn node(symbol: u32, from: u32, to: u32, splits: Splits) -> Node
    ensures { (result.symbol.0 ≡ symbol) × (result.from ≡ from) × (result.to ≡ to) }
{
    Node {
        symbol: SymbolId(symbol),
        from,
        to,
        splits,
    }
}

/// Two nodes of START, the second with two splits, and one of symbol 3 with none.
fn three_nodes(alloc: Global) -> Result<Forest, AllocError> {
    let first = Splits::from_vec(Vec::from_array(alloc, [split(alloc, 2, &[0, 1])?])?);
    let both = [split(alloc, 1, &[0, 1, 2])?, split(alloc, 3, &[0, 2])?];
    let whole = Splits::from_vec(Vec::from_array(alloc, both)?);
    let other = Splits::from_vec(Vec::new(alloc));
    let nodes = [
        node(0, 0, 1, first),
        node(0, 0, 2, whole),
        node(3, 0, 2, other),
    ];
    Ok(Forest {
        nodes: Nodes::from_vec(Vec::from_array(alloc, nodes)?),
    })
}

/// How many splits the node of the span has, if there is one.
fn splits_at(forest: &Forest, symbol: u32, from: u32, to: u32) -> Option<usize> {
    let node = forest.get(SymbolId(symbol), from, to)?;
    Some(node.splits.as_slice().len())
}

/// The number, or the last there is where it is none.
fn number_in(word: Option<&str>) -> u32 {
    match word.unwrap_or("").parse::<u32>() {
        Ok(number) => number,
        Err(_) => u32::MAX,
    }
}

/// How many splits the node with these numbers has, which are its symbol and its ends, if there is one.
pub(crate) fn told_node(alloc: Global, numbers: &str) -> Result<String, AllocError> {
    let forest = three_nodes(alloc)?;
    let mut words = numbers.split_whitespace();
    let symbol = number_in(words.next());
    let from = number_in(words.next());
    let to = number_in(words.next());
    match splits_at(&forest, symbol, from, to) {
        Some(count) => format!(in alloc; "{count} splits"),
        None => String::from_str(alloc, "no node"),
    }
}

/// How many splits there are together.
pub(crate) fn told_count(alloc: Global) -> Result<String, AllocError> {
    let count = three_nodes(alloc)?.count_splits();
    format!(in alloc; "{count} splits")
}
