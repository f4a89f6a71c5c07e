//! The graph over a page of a shared table.

ghost use Rattle.std.specs.Prelude.{◌≡◌, [], IfOk, IfErr};
ghost use Rattle.graph_content.specs.Contents.{IsLogOfGrammar};
ghost use Rattle.live_graph.specs.Tallying.{tallies_of};
ghost use Rattle.live_graph.specs.Ending.{EndsShown};
ghost use Rattle.live_graph.specs.Growing.{TellsGraph};

use crate::NoMemory;
use crate::answer::Answer;
use crate::counting::tally_of;
use crate::graph::Graph;
use crate::shared_kept::{place_of_items, place_of_scan};
use crate::tally::Tallies;
use edit_log::Grammar;
use graph_content::GraphRows;
use indexmap::IndexMap;
use isg_states::{ScanExpansion, ScanKey};
use item_sets::{Expansion, Kernel};
use slot_store::page::Page;
use std::alloc::Global;
use std::marker::Model;
use std::snapshot::Snapshot;
use std::sync::ledger::Ledger;
use steps::Steps;

/// A graph that looks for each key in a page once, and expands itself what the page does not have. It puts that
/// there, where the row has room and the page and the table are not full. What it found or made it keeps, so that
/// the page is not asked again.
pub struct SharedGraph<'g, P: Page<GraphRows>> {
    /// The grammar of the page's version, whose keys are expanded.
    grammar: &'g Grammar,
    /// The page that is searched, and into which rows are put.
    page: P,
    /// The page as it was at first.
    basis: Snapshot<P>,
    /// The states of the scanner that were asked for, each with its answer, in the order of their first ask.
    scans: IndexMap<ScanKey, Answer<ScanExpansion>>,
    /// The kernels that were asked for, each with its answer, in the order of their first ask.
    kernels: IndexMap<Kernel, Answer<Expansion>>,
}

impl<'g, P: Page<GraphRows>> Model for SharedGraph<'g, P> {
    ghost use Rattle.live_graph.specs.Sharing.{Shared};
    ghost use Rattle.live_graph.specs.Answers.{IsKept, origins};

    ghost Value = { Shared };

    ghost view = { λ g. record {
      grammar = g.grammar.now.grammar;
      basis = P.means g.basis.value;
      page = P.means g.page;
      scans = origins g.scans.entries;
      kernels = origins g.kernels.entries;
    } };

    ghost invariant = { λ g. IsKept g.grammar.now.grammar (P.means g.basis.value) (P.means g.page) g.scans.entries g.kernels.entries };
}

impl<P: Page<GraphRows>> SharedGraph<'_, P> {
    /// A graph over the page that was not asked for anything. The grammar is that of the page's version. It takes
    /// no memory yet.
    pub fn new(
        alloc: Global,
        page: P,
        grammar: &Grammar,
    ) -> Result<SharedGraph<'_, P>, (P, NoMemory)>
        requires { IsLogOfGrammar (P.means page).log grammar.now.grammar }
        ensures graph { IfOk result (λ graph. graph ≡ record {
          grammar = grammar.now.grammar;
          basis = P.means page;
          page = P.means page;
          scans = [];
          kernels = [];
        }) }
        ensures refused { IfErr result (λ refused. refused.0 ≡ page) }
    {
        let basis = Snapshot::of(&page);
        Ok(SharedGraph {
            grammar,
            page,
            basis,
            scans: IndexMap::new(alloc),
            kernels: IndexMap::new(alloc),
        })
    }

    /// Gives the page back, and how the expansions of the keys came that were asked for.
    ///
    /// Where the page tells its graph, those keys were found of which the graph at first had a row, and as many rows
    /// were added as were made. So the cost, which is that of the keys that were not found, is the sum over the keys
    /// that were asked for and are not in the graph at first.
    pub fn end(self) -> (P, Tallies)
        ensures page { P.means result.0 ≡ self.entry.page }
        ensures tallies { result.1 ≡ tallies_of self.entry }
        ensures ends { EndsShown self.entry }
        ensures graph { TellsGraph self.entry }
    {
        let SharedGraph {
            grammar: _,
            page,
            basis: _,
            scans,
            kernels,
        } = self;
        let tallies = Tallies {
            items: tally_of(&kernels),
            scan: tally_of(&scans),
        };
        (page, tallies)
    }
}

impl<P: Page<GraphRows>> Graph for SharedGraph<'_, P> {
    ghost use Rattle.slot_store.specs.Meaning.{Meaning as PageMeaning};
    ghost use Rattle.live_graph.specs.Sharing.{means_shared};

    ghost Base = { PageMeaning };

    ghost means = { means_shared };

    fn grammar(&self) -> &Grammar {
        self.grammar
    }

    fn expansion<L: Ledger>(
        &mut self,
        kernel: &Kernel,
        steps: &mut Steps<L>,
    ) -> Result<&Expansion, NoMemory> {
        let place = place_of_items(
            self.grammar,
            &mut self.page,
            &mut self.kernels,
            kernel,
            steps,
        )?;
        match self.kernels.get_index(place) {
            Some((_, answer)) => Ok(&answer.expansion),
            None => unreachable!(),
        }
    }

    fn scan<L: Ledger>(
        &mut self,
        key: &ScanKey,
        steps: &mut Steps<L>,
    ) -> Result<&ScanExpansion, NoMemory> {
        let place = place_of_scan(self.grammar, &mut self.page, &mut self.scans, key, steps)?;
        match self.scans.get_index(place) {
            Some((_, answer)) => Ok(&answer.expansion),
            None => unreachable!(),
        }
    }
}
