//! A grammar that follows the log of a pinned page.

ghost use Rattle.std.specs.Prelude.{IfOk, OnOk};
ghost use Rattle.edit_log.specs.History.{Grammar};
ghost use Rattle.graph_content.specs.Contents.{IsLogOfGrammar, IsLawfulLog};
ghost use Rattle.slot_store.specs.Answers.{ReadsLog};
ghost use Rattle.version_store.specs.Means.{bench_of, lone_of};
ghost use Rattle.sections.specs.Alone.{ServesNext};

use crate::telling::told_spent;
use edit_log::Grammar;
use graph_content::GraphRows;
use live_graph::catch_up;
use std::alloc::{AllocError, Global};
use version_store::bench::Bench;
use version_store::lone::Lone;

/// The version of the grammar and how many symbols it has. Behind this function, which has no contract, these are plain
/// values.
fn counts_of(grammar: &Grammar) -> (u32, u32) {
    (grammar.version(), grammar.symbols())
}

fn told_grammar(alloc: Global, grammar: &Grammar) -> Result<String, AllocError> {
    let (version, symbols) = counts_of(grammar);
    format!(in alloc; "version {version}, {symbols} symbols")
}

/// What an empty grammar becomes that is brought up to the page.
fn told_replica(alloc: Global, page: &mut Lone<GraphRows>) -> Result<String, AllocError>
    requires { IsLawfulLog (lone_of page.old).log }
    ensures reads { OnOk result (ReadsLog (lone_of page.old) (lone_of page.new)) }
{
    let mut replica = Grammar::empty(alloc)?;
    catch_up(&mut replica, page)?;
    let told = told_grammar(alloc, &replica)?;
    Ok(told)
}

/// The same of a page of the bench, and the bench afterwards.
pub(crate) fn told_catching(
    alloc: Global,
    bench: Bench<GraphRows>,
    _grammar: &Grammar,
) -> Result<(Bench<GraphRows>, String), AllocError>
    requires log { IsLogOfGrammar (bench_of bench).log _grammar.now.grammar }
    ensures serves { IfOk result (λ done. ServesNext (bench_of bench) (bench_of done.0) _grammar.now.grammar) }
{
    let mut page = match bench.pin() {
        Ok(page) => page,
        Err((bench, _)) => return told_spent(alloc, bench),
    };
    let told = told_replica(alloc, &mut page)?;
    Ok((page.unpin(), told))
}
