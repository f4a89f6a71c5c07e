//! A graph that counts how often it is asked for a kernel.

use edit_log::Grammar;
use isg_states::{ScanExpansion, ScanKey};
use item_sets::{Expansion, Kernel};
use live_graph::{Graph, NoMemory};
use std::alloc::Global;
use std::sync::ledger::Ledger;
use steps::Steps;

/// A graph with a count of the calls for kernels, and a note of each kernel. What a graph means has no kernel twice, so
/// a contract cannot tell a second call for one: here it can be seen when the program runs. A refused call counts too.
#[derive(Drop)]
pub(crate) struct Counter<G> {
    /// What the calls are handed on to.
    graph: G,
    /// How many calls for kernels there were.
    calls: usize,
    /// The kernels, in the order of their first call, none twice.
    kernels: Vec<Kernel>,
}

/// Adds the kernel behind the others, unless it is one of them.
fn note(kernels: &mut Vec<Kernel>, kernel: &Kernel) -> Result<(), NoMemory> {
    if !kernels.contains(kernel) {
        kernels.push(kernel.clone()?)?;
    }
    Ok(())
}

impl<G: Graph> Counter<G> {
    pub(crate) fn new(alloc: Global, graph: G) -> Counter<G> {
        Counter {
            graph,
            calls: 0,
            kernels: Vec::new(alloc),
        }
    }

    /// How many calls for kernels there were.
    pub(crate) fn calls(&self) -> usize {
        self.calls
    }

    /// For how many kernels they were.
    pub(crate) fn kernels(&self) -> usize {
        self.kernels.len()
    }
}

impl<G: Graph> Graph for Counter<G> {
    ghost Base = { G.Base };

    ghost means = { λ counter. G.means counter.graph };

    fn grammar(&self) -> &Grammar {
        self.graph.grammar()
    }

    fn expansion<L: Ledger>(
        &mut self,
        kernel: &Kernel,
        steps: &mut Steps<L>,
    ) -> Result<&Expansion, NoMemory> {
        self.calls = self.calls.wrapping_add(1);
        note(&mut self.kernels, kernel)?;
        self.graph.expansion(kernel, steps)
    }

    fn scan<L: Ledger>(
        &mut self,
        key: &ScanKey,
        steps: &mut Steps<L>,
    ) -> Result<&ScanExpansion, NoMemory> {
        self.graph.scan(key, steps)
    }
}
