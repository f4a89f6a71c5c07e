//! The table of the rows.

ghost use Rattle.std.specs.Prelude.{◌≡◌, IfOk};
ghost use Rattle.edit_log.specs.declared.limits.TheConstants.{LOG_LIMIT};
ghost use Rattle.edit_log.specs.History.{empty_grammar};
ghost use Rattle.graph_content.specs.Contents.{IsLogOfGrammar};
ghost use Rattle.version_store.specs.Means.{bench_of};
ghost use Rattle.replies.specs.Blocks.{IsProperCommand};

use crate::commands::told_command;
use crate::graphs::told_graph;
use crate::replicas::told_catching;
use crate::telling::told_bench;
use graph_content::GraphRows;
use pin_rule::sizes::Sizes;
use script_text::Command;
use sections::Crew;
use std::alloc::{AllocError, Global};
use std::marker::Model;
use version_store::bench::Bench;

/// A bench and what serves its commands, from row to row. A contract sees the grammar.
#[derive(Drop)]
pub(crate) struct Table {
    /// There is none before the first row that makes one, and none where memory ran out.
    bench: Option<Bench<GraphRows>>,
    /// The grammar after the edits so far, and the parser.
    crew: Crew,
}

impl Model for Table {
    ghost use Rattle.std.specs.Prelude.{IfSome, ◌≡◌};
    ghost use Rattle.edit_log.specs.declared.limits.TheConstants.{LOG_LIMIT};
    ghost use Rattle.edit_log.specs.History.{Grammar};
    ghost use Rattle.graph_content.specs.Contents.{IsLogOfGrammar};
    ghost use Rattle.version_store.specs.Means.{bench_of};

    ghost Value = { Grammar };

    ghost view = { λ table. table.crew };

    ghost invariant = { λ table. IfSome table.bench (λ bench. IsLogOfGrammar (bench_of bench).log table.crew
        × ((bench_of bench).sizes.log ≡ LOG_LIMIT)) };
}

/// The largest sizes, but with so many pins.
fn sizes_with(pins: u32) -> Sizes
    ensures { result.log ≡ LOG_LIMIT }
{
    Sizes {
        log: 16384,
        versions: 16,
        places: 4096,
        rows: 4096,
        width: 512,
        pins: pins.min(2_147_483_648),
    }
}

/// A new bench of these sizes, with so many pins.
fn make_bench(alloc: Global, pins: u32) -> Result<Bench<GraphRows>, AllocError>
    ensures log { IfOk result (λ bench. IsLogOfGrammar (bench_of bench).log empty_grammar) }
    ensures full { IfOk result (λ bench. (bench_of bench).sizes.log ≡ LOG_LIMIT) }
{
    let bench = Bench::make(alloc, sizes_with(pins))?;
    Ok(bench)
}

impl Table {
    /// Without a bench, and with the empty grammar.
    pub(crate) fn new(alloc: Global) -> Result<Table, AllocError> {
        Ok(Table {
            bench: None,
            crew: Crew::new(alloc)?,
        })
    }

    /// Over a new bench with so many pins, and with the empty grammar.
    pub(crate) fn with_pins(alloc: Global, pins: u32) -> Result<Table, AllocError> {
        let crew = Crew::new(alloc)?;
        let bench = make_bench(alloc, pins)?;
        Ok(Table {
            bench: Some(bench),
            crew,
        })
    }

    /// The version of the bench and the pins that are left, if there is one.
    pub(crate) fn told(&self, alloc: Global) -> Result<String, AllocError> {
        match &self.bench {
            Some(bench) => told_bench(alloc, bench),
            None => String::from_str(alloc, "no bench"),
        }
    }

    /// Runs the command.
    pub(crate) fn run(&mut self, alloc: Global, command: &Command) -> Result<String, AllocError>
        requires { IsProperCommand command.now }
    {
        let Some(bench) = self.bench.take() else {
            return String::from_str(alloc, "no bench");
        };
        let (bench, told) = told_command(alloc, bench, &mut self.crew, command)?;
        self.bench = Some(bench);
        Ok(told)
    }

    /// Asks a graph over the page.
    pub(crate) fn ask(&mut self, alloc: Global) -> Result<String, AllocError> {
        let Some(bench) = self.bench.take() else {
            return String::from_str(alloc, "no bench");
        };
        let (bench, told) = told_graph(alloc, bench, self.crew.grammar())?;
        self.bench = Some(bench);
        Ok(told)
    }

    /// Brings an empty grammar up to the page.
    pub(crate) fn follow(&mut self, alloc: Global) -> Result<String, AllocError> {
        let Some(bench) = self.bench.take() else {
            return String::from_str(alloc, "no bench");
        };
        let (bench, told) = told_catching(alloc, bench, self.crew.grammar())?;
        self.bench = Some(bench);
        Ok(told)
    }
}
