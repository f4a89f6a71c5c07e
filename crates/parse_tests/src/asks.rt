//! How often a parse asks its graph for kernels.

ghost use Rattle.std.specs.Prelude.{◌≡◌, ◌<◌};

use crate::counter::Counter;
use crate::texts::asked;
use edit_log::Grammar;
use live_graph::PrivateGraph;
use rekers::Parser;
use std::alloc::{AllocError, Global};
use std::marker::Brand;
use std::sync::ledger::{Blank, Ledger};
use steps::Steps;

/// Parses the text twice over the graph, with one parser. The second parse asks as the first one did.
fn ask_twice<L: Ledger>(
    alloc: Global,
    graph: &mut Counter<PrivateGraph<'_>>,
    text: &[u8],
    steps: &mut Steps<L>,
) -> Result<usize, AllocError> {
    let mut parser = Parser::new(alloc);
    asked(alloc, &mut parser, graph, text, steps)?;
    let calls = graph.calls();
    asked(alloc, &mut parser, graph, text, steps)?;
    Ok(calls)
}

fn told_alone<L: Ledger>(
    alloc: Global,
    grammar: &Grammar,
    text: &[u8],
    blank: Blank,
) -> Result<String, AllocError>
    requires name { blank.name ≡ L.name }
    requires parts { blank.parts ≡ L.parts }
    requires some { 0 < L.parts }
{
    let mut graph = Counter::new(alloc, PrivateGraph::new(alloc, grammar)?);
    let mut steps = Steps::<L>::new(blank);
    let calls = ask_twice(alloc, &mut graph, text, &mut steps)?;
    format!(in alloc;
        "{} kernels, {calls} asks, {} after a second parse",
        graph.kernels(),
        graph.calls()
    )
}

/// For how many kernels a parse of the text asks, how often, and how often two parses do.
pub(crate) fn told_asks(
    alloc: Global,
    grammar: &Grammar,
    text: &[u8],
) -> Result<String, AllocError> {
    told_alone::<Brand>(alloc, grammar, text, Blank::new(1))
}
