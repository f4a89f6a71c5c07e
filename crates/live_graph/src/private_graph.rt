//! The graph of one user.

ghost use Rattle.std.specs.Prelude.{◌≡◌, [], IfOk};

use crate::NoMemory;
use crate::graph::Graph;
use crate::kept::{place_of_kernel, place_of_state};
use edit_log::Grammar;
use indexmap::IndexMap;
use isg_states::{ScanExpansion, ScanKey};
use item_sets::{Expansion, Kernel};
use std::alloc::Global;
use std::marker::Model;
use std::sync::ledger::Ledger;
use steps::Steps;

/// A graph that keeps what it expanded in maps of its own, and expands itself whatever it is asked for.
#[derive(Drop)]
pub struct PrivateGraph<'g> {
    /// The grammar whose keys are expanded.
    grammar: &'g Grammar,
    /// The states of the scanner that were asked for, each with its expansion, in the order of their first ask.
    scans: IndexMap<ScanKey, ScanExpansion>,
    /// The kernels that were asked for, each with its expansion, in the order of their first ask.
    kernels: IndexMap<Kernel, Expansion>,
}

impl<'g> Model for PrivateGraph<'g> {
    ghost use Rattle.indexmap.specs.IndexMap.{keys};
    ghost use Rattle.live_graph.specs.Kept.{Alone, HoldsScans, HoldsKernels};

    ghost Value = { Alone };

    ghost view = { λ g. record { grammar = g.grammar.now.grammar; scans = keys g.scans; kernels = keys g.kernels } };

    ghost invariant = { λ g. HoldsScans g.grammar.now.grammar g.scans.entries × HoldsKernels g.grammar.now.grammar g.kernels.entries };
}

impl PrivateGraph<'_> {
    /// A graph that was not asked for anything.
    pub fn new(alloc: Global, grammar: &Grammar) -> Result<PrivateGraph<'_>, NoMemory>
        ensures { IfOk result (λ graph. graph ≡ record { grammar = grammar.now.grammar; scans = []; kernels = [] }) }
    {
        Ok(PrivateGraph {
            grammar,
            scans: IndexMap::new(alloc),
            kernels: IndexMap::new(alloc),
        })
    }
}

impl Graph for PrivateGraph<'_> {
    ghost use Rattle.live_graph.specs.Kept.{means_alone};

    ghost Base = { Unit {0} };

    ghost means = { means_alone };

    fn grammar(&self) -> &Grammar {
        self.grammar
    }

    fn expansion<L: Ledger>(
        &mut self,
        kernel: &Kernel,
        steps: &mut Steps<L>,
    ) -> Result<&Expansion, NoMemory> {
        let place = place_of_kernel(self.grammar, &mut self.kernels, kernel, steps)?;
        match self.kernels.get_index(place) {
            Some((_, expansion)) => Ok(expansion),
            None => unreachable!(),
        }
    }

    fn scan<L: Ledger>(
        &mut self,
        key: &ScanKey,
        steps: &mut Steps<L>,
    ) -> Result<&ScanExpansion, NoMemory> {
        let place = place_of_state(self.grammar, &mut self.scans, key, steps)?;
        match self.scans.get_index(place) {
            Some((_, expansion)) => Ok(expansion),
            None => unreachable!(),
        }
    }
}
