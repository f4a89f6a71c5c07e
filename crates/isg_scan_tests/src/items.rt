//! What the start kernel expands to, asked of a graph.

ghost use Rattle.std.specs.Prelude.{◌≡◌, ◌<◌, List};
ghost use Rattle.forest.specs.declared.rules.Rule.{Rule};
ghost use Rattle.item_sets.specs.Prefixes.{AreItems};

use crate::telling::{agreed, tell};
use edit_log::Grammar;
use forest::{RuleId, SymbolId};
use item_sets::{Expansion, Item, Kernel};
use live_graph::{Graph, PrivateGraph};
use std::alloc::{AllocError, Global};
use std::marker::Brand;
use std::sync::ledger::{Blank, Ledger};
use steps::Steps;

/// The kernel that a parse begins with. Each grammar has its item.
fn start_of(alloc: Global) -> Kernel
    ensures { (rules : List Rule) → AreItems rules result }
{
    Kernel::start(alloc)
}

/// Adds the item: its rule and its dot.
fn tell_item(alloc: Global, told: &mut String, item: &Item) -> Result<(), AllocError> {
    tell(alloc, told, " ", u64::from(item.rule.0))?;
    tell(alloc, told, ".", u64::from(item.dot))
}

/// Adds a move: its symbol, and behind an arrow the items.
fn tell_move(
    alloc: Global,
    told: &mut String,
    symbol: SymbolId,
    items: &[Item],
) -> Result<(), AllocError> {
    tell(alloc, told, " ", u64::from(symbol.0))?;
    told.push_str(" >")?;
    for item in items {
        tell_item(alloc, told, item)?;
    }
    told.push_str(",")
}

/// Adds the rules that are finished.
fn tell_ends(alloc: Global, told: &mut String, numbers: &[RuleId]) -> Result<(), AllocError> {
    told.push_str(" ends")?;
    for number in numbers {
        tell(alloc, told, " ", u64::from(number.0))?;
    }
    Ok(())
}

/// The moves, and then the reductions.
fn told_expansion(alloc: Global, expansion: &Expansion) -> Result<String, AllocError> {
    let mut told = String::new(alloc);
    for (symbol, kernel) in expansion.moves.as_slice() {
        tell_move(alloc, &mut told, *symbol, kernel.items())?;
    }
    tell_ends(alloc, &mut told, expansion.reductions.as_slice())?;
    Ok(told)
}

/// What the graph answers for the start kernel.
fn told_start<L: Ledger>(
    alloc: Global,
    graph: &mut PrivateGraph<'_>,
    steps: &mut Steps<L>,
) -> Result<String, AllocError> {
    let kernel = start_of(alloc);
    let expansion = graph.expansion(&kernel, steps)?;
    told_expansion(alloc, expansion)
}

/// What the graph answers for the start kernel, asked twice.
fn told_twice<L: Ledger>(
    alloc: Global,
    graph: &mut PrivateGraph<'_>,
    steps: &mut Steps<L>,
) -> Result<String, AllocError> {
    let first = told_start(alloc, graph, steps)?;
    let second = told_start(alloc, graph, steps)?;
    agreed(first, second.as_str())
}

fn told_over<L: Ledger>(
    alloc: Global,
    grammar: &Grammar,
    blank: Blank,
) -> Result<String, AllocError>
    requires name { blank.name ≡ L.name }
    requires parts { blank.parts ≡ L.parts }
    requires some { 0 < L.parts }
{
    let mut graph = PrivateGraph::new(alloc, grammar)?;
    let mut steps = Steps::<L>::new(blank);
    told_twice(alloc, &mut graph, &mut steps)
}

/// What the start kernel expands to.
pub(crate) fn told_items(alloc: Global, grammar: &Grammar) -> Result<String, AllocError> {
    told_over::<Brand>(alloc, grammar, Blank::new(1))
}
