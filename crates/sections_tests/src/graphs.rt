//! A graph over a pinned page, asked twice for each key.

ghost use Rattle.std.specs.Prelude.{◌≡◌, ◌<◌, List, IfOk, OnOk, IfSome, Contains};
ghost use Rattle.forest.specs.declared.rules.Rule.{Rule};
ghost use Rattle.item_sets.specs.Prefixes.{AreItems};
ghost use Rattle.isg_states.specs.Expansion.{Range, AreMarks};
ghost use Rattle.graph_content.specs.Contents.{IsLogOfGrammar};
ghost use Rattle.version_store.specs.Means.{bench_of, lone_of};
ghost use Rattle.live_graph.specs.Showing.{HasStepped};
ghost use Rattle.sections.specs.Alone.{ServesNext};

use crate::telling::{agreed, tell, tell_key, tell_tallies, told_spent};
use edit_log::Grammar;
use forest::{RuleId, SymbolId};
use graph_content::GraphRows;
use isg_states::ScanKey;
use item_sets::{Expansion, Item, Kernel};
use live_graph::{Graph, SharedGraph, Tallies};
use std::alloc::{AllocError, Global};
use std::marker::Brand;
use std::sync::ledger::{Blank, Ledger};
use steps::Steps;
use version_store::bench::Bench;
use version_store::lone::Lone;

/// The kernel that a parse begins with. Each grammar has its item.
fn start_of(alloc: Global) -> Kernel
    ensures { (rules : List Rule) → AreItems rules result }
{
    Kernel::start(alloc)
}

/// Adds the item: its rule and its dot.
fn tell_item(alloc: Global, told: &mut String, item: &Item) -> Result<(), AllocError> {
    tell(alloc, told, " ", u64::from(item.rule.0))?;
    tell(alloc, told, ".", u64::from(item.dot))
}

/// Adds a move: its symbol, and behind an arrow the items.
fn tell_move(
    alloc: Global,
    told: &mut String,
    symbol: SymbolId,
    items: &[Item],
) -> Result<(), AllocError> {
    tell(alloc, told, " ", u64::from(symbol.0))?;
    told.push_str(" >")?;
    for item in items {
        tell_item(alloc, told, item)?;
    }
    told.push_str(",")
}

/// Adds the rules that are finished.
fn tell_ends(alloc: Global, told: &mut String, numbers: &[RuleId]) -> Result<(), AllocError> {
    told.push_str(" ends")?;
    for number in numbers {
        tell(alloc, told, " ", u64::from(number.0))?;
    }
    Ok(())
}

/// The moves, and then the reductions.
fn told_expansion(alloc: Global, expansion: &Expansion) -> Result<String, AllocError> {
    let mut told = String::new(alloc);
    for (symbol, kernel) in expansion.moves.as_slice() {
        tell_move(alloc, &mut told, *symbol, kernel.items())?;
    }
    tell_ends(alloc, &mut told, expansion.reductions.as_slice())?;
    Ok(told)
}

/// What the graph answers for the start kernel.
fn told_start<G: Graph, L: Ledger>(
    alloc: Global,
    graph: &mut G,
    steps: &mut Steps<L>,
) -> Result<String, AllocError>
    ensures grammar { OnOk result ((G.means graph.new).grammar ≡ (G.means graph.old).grammar) }
    ensures base { OnOk result ((G.means graph.new).base ≡ (G.means graph.old).base) }
{
    let kernel = start_of(alloc);
    let expansion = graph.expansion(&kernel, steps)?;
    let told = told_expansion(alloc, expansion)?;
    Ok(told)
}

/// What the graph answers for the start kernel, asked twice.
fn told_items<G: Graph, L: Ledger>(
    alloc: Global,
    graph: &mut G,
    steps: &mut Steps<L>,
) -> Result<String, AllocError>
    ensures grammar { OnOk result ((G.means graph.new).grammar ≡ (G.means graph.old).grammar) }
    ensures base { OnOk result ((G.means graph.new).base ≡ (G.means graph.old).base) }
{
    let first = told_start(alloc, graph, steps)?;
    let second = told_start(alloc, graph, steps)?;
    let told = agreed(first, second.as_str())?;
    Ok(told)
}

fn is_within(low: u8, byte: u8, high: u8) -> bool {
    low <= byte && byte <= high
}

/// The state of the range that has the byte.
fn target(ranges: &[(u8, u8, ScanKey)], byte: u8) -> Result<Option<ScanKey>, AllocError>
    ensures { IfOk result (λ found. IfSome found (λ key. (range : Range) × Contains ranges.now range × (key ≡ range.2))) }
{
    for range in ranges {
        if is_within(range.0, byte, range.1) {
            let key = range.2.clone()?;
            return Ok(Some(key));
        }
    }
    Ok(None)
}

/// Adds the bytes from the first to the second, and the state to which they lead.
fn tell_range(
    alloc: Global,
    told: &mut String,
    low: u8,
    high: u8,
    key: &ScanKey,
) -> Result<(), AllocError> {
    tell(alloc, told, " ", u64::from(low))?;
    tell(alloc, told, "-", u64::from(high))?;
    tell_key(alloc, told, key)
}

/// The ranges, each with its state.
fn told_ranges(alloc: Global, ranges: &[(u8, u8, ScanKey)]) -> Result<String, AllocError> {
    if ranges.is_empty() {
        return String::from_str(alloc, " nowhere");
    }
    let mut told = String::new(alloc);
    for range in ranges {
        tell_range(alloc, &mut told, range.0, range.1, &range.2)?;
    }
    Ok(told)
}

/// Where the graph answers that bytes lead from the state, and the state behind `a`.
fn told_leading<G: Graph, L: Ledger>(
    alloc: Global,
    graph: &mut G,
    key: &ScanKey,
    steps: &mut Steps<L>,
) -> Result<(String, Option<ScanKey>), AllocError>
    requires { AreMarks (G.means graph.old).grammar key.now }
    ensures grammar { OnOk result ((G.means graph.new).grammar ≡ (G.means graph.old).grammar) }
    ensures base { OnOk result ((G.means graph.new).base ≡ (G.means graph.old).base) }
    ensures marks { IfOk result (λ led. IfSome led.1 (AreMarks (G.means graph.old).grammar)) }
{
    let expansion = graph.scan(key, steps)?;
    let found = target(expansion.ranges.as_slice(), b'a')?;
    let told = told_ranges(alloc, expansion.ranges.as_slice())?;
    Ok((told, found))
}

/// The same, asked twice.
fn told_state<G: Graph, L: Ledger>(
    alloc: Global,
    graph: &mut G,
    key: &ScanKey,
    steps: &mut Steps<L>,
) -> Result<(String, Option<ScanKey>), AllocError>
    requires { AreMarks (G.means graph.old).grammar key.now }
    ensures grammar { OnOk result ((G.means graph.new).grammar ≡ (G.means graph.old).grammar) }
    ensures base { OnOk result ((G.means graph.new).base ≡ (G.means graph.old).base) }
    ensures marks { IfOk result (λ led. IfSome led.1 (AreMarks (G.means graph.old).grammar)) }
{
    let (first, found) = told_leading(alloc, graph, key, steps)?;
    let (second, _) = told_leading(alloc, graph, key, steps)?;
    let told = agreed(first, second.as_str())?;
    Ok((told, found))
}

/// Where the bytes lead from the state behind `a`, if there is one.
fn told_behind<G: Graph, L: Ledger>(
    alloc: Global,
    graph: &mut G,
    key: Option<ScanKey>,
    steps: &mut Steps<L>,
) -> Result<String, AllocError>
    requires { IfSome key (AreMarks (G.means graph.old).grammar) }
    ensures base { OnOk result ((G.means graph.new).base ≡ (G.means graph.old).base) }
{
    match key {
        Some(key) => {
            let (told, _) = told_state(alloc, graph, &key, steps)?;
            Ok(told)
        }
        None => String::from_str(alloc, " no state"),
    }
}

/// What the graph answers for the start of the scanner and the state behind `a`.
fn told_scans<G: Graph, L: Ledger>(
    alloc: Global,
    graph: &mut G,
    steps: &mut Steps<L>,
) -> Result<String, AllocError>
    ensures base { OnOk result ((G.means graph.new).base ≡ (G.means graph.old).base) }
{
    let (told, found) = told_state(alloc, graph, &ScanKey::Start, steps)?;
    let behind = told_behind(alloc, graph, found, steps)?;
    let told = format!(in alloc; "{told}; behind a{behind}")?;
    Ok(told)
}

/// What the graph answers for the three keys.
fn told_keys<G: Graph, L: Ledger>(
    alloc: Global,
    graph: &mut G,
    steps: &mut Steps<L>,
) -> Result<String, AllocError>
    ensures base { OnOk result ((G.means graph.new).base ≡ (G.means graph.old).base) }
{
    let items = told_items(alloc, graph, steps)?;
    let scans = told_scans(alloc, graph, steps)?;
    let told = format!(in alloc; "moves{items}; start{scans};")?;
    Ok(told)
}

/// With how the expansions came.
fn with_tallies(alloc: Global, told: String, tallies: Tallies) -> Result<String, AllocError> {
    let mut told = told;
    tell_tallies(alloc, &mut told, tallies)?;
    Ok(told)
}

/// What a graph over the page answers, whose steps are counted in the ledger of this blank.
fn told_over<L: Ledger>(
    alloc: Global,
    page: Lone<GraphRows>,
    grammar: &Grammar,
    blank: Blank,
) -> Result<(Lone<GraphRows>, String), AllocError>
    requires name { blank.name ≡ L.name }
    requires parts { blank.parts ≡ L.parts }
    requires some { 0 < L.parts }
    requires log { IsLogOfGrammar (lone_of page).log grammar.now.grammar }
    ensures page { IfOk result (λ done. HasStepped (lone_of page) (lone_of done.0)) }
{
    let mut graph = match SharedGraph::new(alloc, page, grammar) {
        Ok(graph) => graph,
        Err(_) => return Err(AllocError),
    };
    let mut steps = Steps::<L>::new(blank);
    let told = told_keys(alloc, &mut graph, &mut steps);
    let (page, tallies) = graph.end();
    let told = with_tallies(alloc, told?, tallies)?;
    Ok((page, told))
}

/// What a graph over the pinned page of the bench answers, and the bench afterwards.
pub(crate) fn told_graph(
    alloc: Global,
    bench: Bench<GraphRows>,
    grammar: &Grammar,
) -> Result<(Bench<GraphRows>, String), AllocError>
    requires log { IsLogOfGrammar (bench_of bench).log grammar.now.grammar }
    ensures serves { IfOk result (λ done. ServesNext (bench_of bench) (bench_of done.0) grammar.now.grammar) }
{
    let page = match bench.pin() {
        Ok(page) => page,
        Err((bench, _)) => return told_spent(alloc, bench),
    };
    let (page, told) = told_over::<Brand>(alloc, page, grammar, Blank::new(1))?;
    Ok((page.unpin(), told))
}
