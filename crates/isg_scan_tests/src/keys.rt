//! Which states of the scanner a scan asks a graph for.

ghost use Rattle.std.specs.Prelude.{◌≡◌, ◌<◌, ◌≤◌, length};
ghost use Rattle.isg_scan.specs.declared.scanning.TheConstants.{SCAN_LIMIT};

use crate::recorder::Recorder;
use crate::telling::tell_key;
use edit_log::Grammar;
use isg_scan::{SCAN_LIMIT, ScanError, scan};
use isg_states::ScanKey;
use live_graph::PrivateGraph;
use std::alloc::{AllocError, Global};
use std::marker::Brand;
use std::sync::ledger::{Blank, Ledger};
use steps::Steps;

/// Scans the text over the graph. Also where it is refused, the graph was asked.
fn scan_over<L: Ledger>(
    alloc: Global,
    graph: &mut Recorder<PrivateGraph<'_>>,
    text: &[u8],
    steps: &mut Steps<L>,
) -> Result<(), AllocError>
    requires { length text.now ≤ SCAN_LIMIT }
{
    match scan(alloc, graph, text, steps) {
        Ok(_) => Ok(()),
        Err(ScanError::NoMemory) => Err(AllocError),
        Err(_) => Ok(()),
    }
}

/// The states, each behind a blank.
fn told_all(alloc: Global, keys: &[ScanKey]) -> Result<String, AllocError> {
    let mut told = String::new(alloc);
    for key in keys {
        tell_key(alloc, &mut told, key)?;
    }
    Ok(told)
}

/// The states that a scan of the text asks for.
fn told_asked<L: Ledger>(
    alloc: Global,
    grammar: &Grammar,
    text: &[u8],
    blank: Blank,
) -> Result<String, AllocError>
    requires small { length text.now ≤ SCAN_LIMIT }
    requires name { blank.name ≡ L.name }
    requires parts { blank.parts ≡ L.parts }
    requires some { 0 < L.parts }
{
    let mut graph = Recorder::new(alloc, PrivateGraph::new(alloc, grammar)?);
    let mut steps = Steps::<L>::new(blank);
    scan_over(alloc, &mut graph, text, &mut steps)?;
    told_all(alloc, graph.asked())
}

/// The states that a scan of the text asks for, in the order of their first ask.
pub(crate) fn told_keys(
    alloc: Global,
    grammar: &Grammar,
    text: &[u8],
) -> Result<String, AllocError> {
    if text.len() > SCAN_LIMIT {
        return Err(AllocError);
    }
    told_asked::<Brand>(alloc, grammar, text, Blank::new(1))
}
