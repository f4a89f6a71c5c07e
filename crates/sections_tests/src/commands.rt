//! A command, run over a bench.

ghost use Rattle.std.specs.Prelude.{◌≡◌, ◌<◌, IfOk, IfErr};
ghost use Rattle.edit_log.specs.declared.limits.TheConstants.{LOG_LIMIT};
ghost use Rattle.graph_content.specs.Contents.{IsLogOfGrammar};
ghost use Rattle.version_store.specs.Means.{bench_of};
ghost use Rattle.replies.specs.Blocks.{IsProperCommand};
ghost use Rattle.replies.specs.Known.{IsKnownReply};
ghost use Rattle.sections.specs.Alone.{ServesNext};

use crate::telling::{tell, tell_tallies, told_spent};
use edit_log::Grammar;
use graph_content::GraphRows;
use live_graph::Tallies;
use replies::{Reply, put_reply};
use script_text::Command;
use sections::{Alone, AloneError, Crew, run_alone};
use std::alloc::{AllocError, Global};
use std::marker::Brand;
use std::sync::ledger::{Blank, Ledger};
use steps::Steps;
use version_store::bench::Bench;

/// The lines, each with a bar for its end.
fn told_lines(alloc: Global, lines: &[u8]) -> Result<String, AllocError> {
    let mut all = Vec::new(alloc);
    for byte in lines {
        all.push(if *byte == b'\n' { b'|' } else { *byte })?;
    }
    match String::from_utf8(all) {
        Ok(text) => Ok(text),
        Err(_) => String::from_str(alloc, "no text"),
    }
}

/// Adds how many rows an edit dropped.
fn tell_dropped(alloc: Global, told: &mut String, dropped: (u32, u32)) -> Result<(), AllocError> {
    tell(alloc, told, " dropped items ", u64::from(dropped.0))?;
    tell(alloc, told, " scan ", u64::from(dropped.1))
}

/// The lines of the reply, and the counts that go with the command.
fn told_answer(
    alloc: Global,
    command: &Command,
    lines: &[u8],
    tallies: Tallies,
    dropped: (u32, u32),
) -> Result<String, AllocError> {
    let mut told = told_lines(alloc, lines)?;
    match command {
        Command::Edit(_) => tell_dropped(alloc, &mut told, dropped)?,
        Command::Parse(_) => tell_tallies(alloc, &mut told, tallies)?,
        Command::Tokens(_) => tell_tallies(alloc, &mut told, tallies)?,
        Command::Stats => {}
    }
    Ok(told)
}

/// What comes of the command, whose steps are counted in the ledger of this blank.
fn ran<L: Ledger>(
    alloc: Global,
    bench: Bench<GraphRows>,
    crew: &mut Crew,
    command: &Command,
    blank: Blank,
) -> Result<Alone, (Bench<GraphRows>, AloneError)>
    requires name { blank.name ≡ L.name }
    requires parts { blank.parts ≡ L.parts }
    requires some { 0 < L.parts }
    requires proper { IsProperCommand command.now }
    requires log { IsLogOfGrammar (bench_of bench).log crew.old }
    requires full { (bench_of bench).sizes.log ≡ LOG_LIMIT }
    ensures known { IfOk result (λ alone. IsKnownReply crew.new.symbols alone.reply) }
    ensures serves { IfOk result (λ alone. ServesNext (bench_of bench) (bench_of alone.bench) crew.new) }
    ensures back { IfErr result (λ refused. ServesNext (bench_of bench) (bench_of refused.0) crew.new) }
{
    let mut steps = Steps::<L>::new(blank);
    run_alone(alloc, bench, crew, command, &mut steps)
}

/// The lines of the reply. Behind this function they are plain bytes.
fn lines_of(alloc: Global, grammar: &Grammar, reply: &Reply) -> Result<Vec<u8>, AllocError>
    requires { IsKnownReply grammar.now.grammar.symbols reply.now }
{
    let mut lines = Vec::new(alloc);
    put_reply(grammar, reply, &mut lines)?;
    Ok(lines)
}

/// What is told of a command that was answered, and its bench.
fn told_alone(
    alloc: Global,
    grammar: &Grammar,
    command: &Command,
    alone: Alone,
) -> Result<(Bench<GraphRows>, String), AllocError>
    requires { IsKnownReply grammar.now.grammar.symbols alone.reply }
    ensures { IfOk result (λ done. done.0 ≡ alone.bench) }
{
    let Alone {
        bench,
        reply,
        tallies,
        dropped,
    } = alone;
    let lines = lines_of(alloc, grammar, &reply)?;
    let told = told_answer(alloc, command, &lines, tallies, dropped)?;
    Ok((bench, told))
}

/// What comes of the command, and the bench for the next one.
pub(crate) fn told_command(
    alloc: Global,
    bench: Bench<GraphRows>,
    crew: &mut Crew,
    command: &Command,
) -> Result<(Bench<GraphRows>, String), AllocError>
    requires proper { IsProperCommand command.now }
    requires log { IsLogOfGrammar (bench_of bench).log crew.old }
    requires full { (bench_of bench).sizes.log ≡ LOG_LIMIT }
    ensures serves { IfOk result (λ done. ServesNext (bench_of bench) (bench_of done.0) crew.new) }
{
    match ran::<Brand>(alloc, bench, crew, command, Blank::new(1)) {
        Ok(alone) => told_alone(alloc, crew.grammar(), command, alone),
        Err((bench, AloneError::Spent)) => told_spent(alloc, bench),
        Err((_, AloneError::NoMemory)) => Err(AllocError),
    }
}
