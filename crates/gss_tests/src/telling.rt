//! What stacks give, as text.

use forest::{RuleId, SymbolId};
use gss::{LinkId, NodeId, Path, Stacks};
use item_sets::{Item, Kernel};
use std::alloc::{AllocError, Global};

/// More nodes and links than any row has.
const MANY: usize = 1_000;

/// A dot of a row, or 0 where the number is none.
fn dot_of(number: u32) -> u8 {
    match u8::try_from(number) {
        Ok(dot) => dot,
        Err(_) => 0,
    }
}

/// The kernel of this item alone.
fn kernel_of(alloc: Global, rule: u32, dot: u8) -> Result<Kernel, AllocError> {
    let item = Item {
        rule: RuleId(rule),
        dot,
    };
    Kernel::of(alloc, &[item])
}

/// The number of the kernel's node.
fn node(stacks: &mut Stacks, kernel: &Kernel, at: u32) -> Result<u32, AllocError> {
    if stacks.node_count() >= MANY {
        return Err(AllocError);
    }
    if stacks.link_count() >= MANY {
        return Err(AllocError);
    }
    let node = stacks.node(kernel, at)?;
    Ok(node.0)
}

/// The number of the node of the kernel with this one item at the place.
pub(crate) fn told_node(
    alloc: Global,
    stacks: &mut Stacks,
    rule: u32,
    dot: u32,
    at: u32,
) -> Result<String, AllocError> {
    let kernel = kernel_of(alloc, rule, dot_of(dot))?;
    let number = node(stacks, &kernel, at)?;
    format!(in alloc; " {number}")
}

/// The number of the link, and whether it is new.
fn link(
    stacks: &mut Stacks,
    upper: u32,
    symbol: u32,
    lower: u32,
) -> Result<(u32, bool), AllocError> {
    let nodes = stacks.node_count();
    if nodes >= MANY {
        return Err(AllocError);
    }
    if stacks.link_count() >= MANY {
        return Err(AllocError);
    }
    if upper as usize >= nodes {
        return Err(AllocError);
    }
    if lower as usize >= nodes {
        return Err(AllocError);
    }
    let (link, is_new) = stacks.add_link(NodeId(upper), SymbolId(symbol), NodeId(lower))?;
    Ok((link.0, is_new))
}

/// The number of the link, and whether it is new.
pub(crate) fn told_link(
    alloc: Global,
    stacks: &mut Stacks,
    upper: u32,
    symbol: u32,
    lower: u32,
) -> Result<String, AllocError> {
    let (number, is_new) = link(stacks, upper, symbol, lower)?;
    let word = if is_new { "new" } else { "not new" };
    format!(in alloc; " {number} {word}")
}

/// The paths of so many links down from the node.
fn all_paths(stacks: &Stacks, node: u32, length: u32) -> Result<Vec<Path>, AllocError> {
    if node as usize >= stacks.node_count() {
        return Err(AllocError);
    }
    stacks.paths(NodeId(node), length, None)
}

/// Those of them that go through the link.
fn paths_through(
    stacks: &Stacks,
    node: u32,
    length: u32,
    link: u32,
) -> Result<Vec<Path>, AllocError> {
    if node as usize >= stacks.node_count() {
        return Err(AllocError);
    }
    if link as usize >= stacks.link_count() {
        return Err(AllocError);
    }
    stacks.paths(NodeId(node), length, Some(LinkId(link)))
}

/// Adds the nodes of the path.
fn tell_path(alloc: Global, told: &mut String, path: &Path) -> Result<(), AllocError> {
    told.push_str(" |")?;
    for node in path.nodes.as_slice() {
        told.push_str(&format!(in alloc; " {}", node.0)?)?;
    }
    Ok(())
}

/// How many paths there are, and the nodes of each.
fn told_all(alloc: Global, paths: &[Path]) -> Result<String, AllocError> {
    let mut told = format!(in alloc; " {}", paths.len())?;
    for path in paths {
        tell_path(alloc, &mut told, path)?;
    }
    Ok(told)
}

/// The paths of so many links down from the node, through the link if one is named.
pub(crate) fn told_paths(
    alloc: Global,
    stacks: &Stacks,
    node: u32,
    length: u32,
    through: Option<&u32>,
) -> Result<String, AllocError> {
    let paths = match through {
        Some(link) => paths_through(stacks, node, length, *link)?,
        None => all_paths(stacks, node, length)?,
    };
    told_all(alloc, &paths)
}
