//! A graph that notes which states of the scanner it is asked for.

use edit_log::Grammar;
use isg_states::{ScanExpansion, ScanKey};
use item_sets::{Expansion, Kernel};
use live_graph::{Graph, NoMemory};
use std::alloc::Global;
use std::sync::ledger::Ledger;
use steps::Steps;

/// A graph with a note of each state of the scanner that it was asked for. The keys of a graph stand in contracts
/// alone: here they can be seen when the program runs. A refused call was asked for too.
#[derive(Drop)]
pub(crate) struct Recorder<G> {
    /// The graph that answers.
    graph: G,
    /// In the order of their first ask, none twice.
    asked: Vec<ScanKey>,
}

/// Adds the state behind the others, unless it is one of them.
fn note(asked: &mut Vec<ScanKey>, key: &ScanKey) -> Result<(), NoMemory> {
    if !asked.contains(key) {
        asked.push(key.clone()?)?;
    }
    Ok(())
}

impl<G: Graph> Recorder<G> {
    /// Over a graph that was not asked for anything.
    pub(crate) fn new(alloc: Global, graph: G) -> Recorder<G> {
        Recorder {
            graph,
            asked: Vec::new(alloc),
        }
    }

    /// The states of the scanner, in the order of their first ask.
    pub(crate) fn asked(&self) -> &[ScanKey] {
        &self.asked
    }
}

impl<G: Graph> Graph for Recorder<G> {
    ghost Base = { G.Base };

    ghost means = { λ recorder. G.means recorder.graph };

    fn grammar(&self) -> &Grammar {
        self.graph.grammar()
    }

    fn expansion<L: Ledger>(
        &mut self,
        kernel: &Kernel,
        steps: &mut Steps<L>,
    ) -> Result<&Expansion, NoMemory> {
        self.graph.expansion(kernel, steps)
    }

    fn scan<L: Ledger>(
        &mut self,
        key: &ScanKey,
        steps: &mut Steps<L>,
    ) -> Result<&ScanExpansion, NoMemory> {
        note(&mut self.asked, key)?;
        self.graph.scan(key, steps)
    }
}
