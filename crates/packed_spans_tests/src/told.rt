//! Forests as text.

use forest::Forest;
use std::alloc::{AllocError, Global};

/// Each node as its symbol, its ends and its splits.
pub(crate) fn told_nodes(alloc: Global, forest: &Forest) -> Result<String, AllocError> {
    let mut told = String::new(alloc);
    for node in forest.nodes.as_slice() {
        told.push_str(&format!(in alloc; "{} {}-{}:", node.symbol.0, node.from, node.to)?)?;
        for split in node.splits.as_slice() {
            let cuts = split.cuts.as_slice();
            told.push_str(&format!(in alloc; " {}@{cuts:?}", split.rule.0)?)?;
        }
        told.push_str("; ")?;
    }
    Ok(told)
}
