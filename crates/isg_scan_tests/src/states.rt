//! The states of the scanner, each asked of a graph.

ghost use Rattle.std.specs.Prelude.{◌≡◌, ◌<◌, IfOk, OnOk, IfSome, Contains};
ghost use Rattle.isg_states.specs.Expansion.{Range, AreMarks};

use crate::telling::{agreed, tell, tell_key};
use edit_log::{DefId, Grammar};
use isg_states::{ScanKey, accepts};
use live_graph::{Graph, PrivateGraph};
use std::alloc::{AllocError, Global};
use std::marker::Brand;
use std::sync::ledger::{Blank, Ledger};
use steps::Steps;

fn is_within(low: u8, byte: u8, high: u8) -> bool {
    low <= byte && byte <= high
}

/// The state of the range that has the byte.
fn target(ranges: &[(u8, u8, ScanKey)], byte: u8) -> Result<Option<ScanKey>, AllocError>
    ensures { IfOk result (λ found. IfSome found (λ key. (range : Range) × Contains ranges.now range × (key ≡ range.2))) }
{
    for range in ranges {
        if is_within(range.0, byte, range.1) {
            let key = range.2.clone()?;
            return Ok(Some(key));
        }
    }
    Ok(None)
}

/// The state to which the byte leads.
fn next<L: Ledger>(
    graph: &mut PrivateGraph<'_>,
    key: &ScanKey,
    byte: u8,
    steps: &mut Steps<L>,
) -> Result<Option<ScanKey>, AllocError>
    requires { AreMarks graph.old.grammar key.now }
    ensures { IfOk result (λ found. IfSome found (λ next. AreMarks graph.new.grammar next)) }
{
    let expansion = graph.scan(key, steps)?;
    let found = target(expansion.ranges.as_slice(), byte)?;
    Ok(found)
}

/// The state after the piece.
fn reached<L: Ledger>(
    graph: &mut PrivateGraph<'_>,
    piece: &[u8],
    steps: &mut Steps<L>,
) -> Result<Option<ScanKey>, AllocError>
    ensures { IfOk result (λ found. IfSome found (λ key. AreMarks graph.new.grammar key)) }
{
    let mut key = ScanKey::Start;
    for byte in piece {
        match next(graph, &key, *byte, steps)? {
            Some(next) => key = next,
            None => return Ok(None),
        }
    }
    Ok(Some(key))
}

/// Adds the bytes from the first to the second, and the state to which they lead.
fn tell_range(
    alloc: Global,
    told: &mut String,
    low: u8,
    high: u8,
    key: &ScanKey,
) -> Result<(), AllocError> {
    tell(alloc, told, " ", u64::from(low))?;
    tell(alloc, told, "-", u64::from(high))?;
    tell_key(alloc, told, key)
}

/// The ranges, each with its state.
fn told_ranges(alloc: Global, ranges: &[(u8, u8, ScanKey)]) -> Result<String, AllocError> {
    if ranges.is_empty() {
        return String::from_str(alloc, " nowhere");
    }
    let mut told = String::new(alloc);
    for range in ranges {
        tell_range(alloc, &mut told, range.0, range.1, &range.2)?;
    }
    Ok(told)
}

/// Where the graph answers that the bytes lead from the state.
fn told_leading<L: Ledger>(
    alloc: Global,
    graph: &mut PrivateGraph<'_>,
    key: &ScanKey,
    steps: &mut Steps<L>,
) -> Result<String, AllocError>
    requires { AreMarks graph.old.grammar key.now }
    ensures { OnOk result (AreMarks graph.new.grammar key.now) }
{
    let expansion = graph.scan(key, steps)?;
    let told = told_ranges(alloc, expansion.ranges.as_slice())?;
    Ok(told)
}

/// Where the graph answers that the bytes lead from the state, asked twice.
fn told_twice<L: Ledger>(
    alloc: Global,
    graph: &mut PrivateGraph<'_>,
    key: &ScanKey,
    steps: &mut Steps<L>,
) -> Result<String, AllocError>
    requires { AreMarks graph.old.grammar key.now }
    ensures { OnOk result (AreMarks graph.new.grammar key.now) }
{
    let first = told_leading(alloc, graph, key, steps)?;
    let second = told_leading(alloc, graph, key, steps)?;
    let told = agreed(first, second.as_str())?;
    Ok(told)
}

/// What the state accepts. Behind this function, which says nothing of it, it is a plain value.
fn accepted_by(grammar: &Grammar, key: &ScanKey) -> Option<DefId>
    requires { AreMarks grammar.now.grammar key.now }
{
    accepts(grammar, key)
}

/// Adds the definition that is accepted.
fn tell_accepted(
    alloc: Global,
    told: &mut String,
    definition: Option<DefId>,
) -> Result<(), AllocError> {
    match definition {
        Some(DefId::Literal(symbol)) => tell(
            alloc,
            told,
            ", accepts literal ",
            u64::from(symbol.0),
        ),
        Some(DefId::Named(number)) => tell(alloc, told, ", accepts named ", u64::from(number.0)),
        None => told.push_str(", accepts nothing"),
    }
}

/// Where the bytes lead from the state, and what it accepts.
fn told_state<L: Ledger>(
    alloc: Global,
    graph: &mut PrivateGraph<'_>,
    key: &ScanKey,
    steps: &mut Steps<L>,
) -> Result<String, AllocError>
    requires { AreMarks graph.old.grammar key.now }
{
    let mut told = told_twice(alloc, graph, key, steps)?;
    tell_accepted(alloc, &mut told, accepted_by(graph.grammar(), key))?;
    Ok(told)
}

fn told_after<L: Ledger>(
    alloc: Global,
    graph: &mut PrivateGraph<'_>,
    piece: &[u8],
    steps: &mut Steps<L>,
) -> Result<String, AllocError> {
    match reached(graph, piece, steps)? {
        Some(key) => told_state(alloc, graph, &key, steps),
        None => String::from_str(alloc, " no state"),
    }
}

fn told_over<L: Ledger>(
    alloc: Global,
    grammar: &Grammar,
    piece: &[u8],
    blank: Blank,
) -> Result<String, AllocError>
    requires name { blank.name ≡ L.name }
    requires parts { blank.parts ≡ L.parts }
    requires some { 0 < L.parts }
{
    let mut graph = PrivateGraph::new(alloc, grammar)?;
    let mut steps = Steps::<L>::new(blank);
    told_after(alloc, &mut graph, piece, &mut steps)
}

/// Where the bytes lead from the state after the piece, and what it accepts.
pub(crate) fn told_states(
    alloc: Global,
    grammar: &Grammar,
    piece: &[u8],
) -> Result<String, AllocError> {
    told_over::<Brand>(alloc, grammar, piece, Blank::new(1))
}
