//! Answering the blocks of a script over one bench.

ghost use Rattle.std.specs.Prelude.{◌≡◌, ◌<◌, ◌++◌, IfOk, OnOk};
ghost use Rattle.edit_log.specs.declared.limits.TheConstants.{LOG_LIMIT};
ghost use Rattle.graph_content.specs.Contents.{IsLogOfGrammar};
ghost use Rattle.version_store.specs.Means.{bench_of};
ghost use Rattle.replies.specs.Replies.{grammar_after};
ghost use Rattle.replies.specs.Blocks.{IsProperCommand, IsProperBlock, grammar_behind};
ghost use Rattle.workbench.specs.Benches.{shown_laziness, AnswersCommand, AnswersBlock};

use graph_content::GraphRows;
use live_graph::Tallies;
use replies::{Reply, put_laziness, put_reply};
use script_text::{Block, Command};
use sections::{Alone, AloneError, Crew, run_alone};
use std::alloc::{AllocError, Global};
use std::marker::Brand;
use std::sync::ledger::{Blank, Ledger};
use steps::Steps;
use version_store::bench::Bench;

/// Appends the lines that tell how lazy the command was, where they are asked for.
fn put_shown(
    stats: bool,
    reply: &Reply,
    tallies: &Tallies,
    dropped: (u32, u32),
    out: &mut Vec<u8>,
) -> Result<(), AllocError>
    ensures { OnOk result (out.new.items ≡ out.old.items ++ shown_laziness stats reply.now tallies.now dropped) }
{
    if !stats {
        return Ok(());
    }
    put_laziness(reply, tallies, dropped, out)
}

/// Answers a command: the lines of its reply are appended, and those that tell how lazy it was, where they are asked for.
/// Its steps are counted in the ledger of this blank.
fn answer_with<L: Ledger>(
    alloc: Global,
    bench: Bench<GraphRows>,
    crew: &mut Crew,
    command: &Command,
    stats: bool,
    out: &mut Vec<u8>,
    blank: Blank,
) -> Result<Bench<GraphRows>, AllocError>
    requires name { blank.name ≡ L.name }
    requires parts { blank.parts ≡ L.parts }
    requires some { 0 < L.parts }
    requires proper { IsProperCommand command.now }
    requires log { IsLogOfGrammar (bench_of bench).log crew.old }
    requires full { (bench_of bench).sizes.log ≡ LOG_LIMIT }
    requires pins { 0 < (bench_of bench).pins_left }
    ensures next { OnOk result (crew.new ≡ grammar_after crew.old command.now) }
    ensures answers { IfOk result (λ next. AnswersCommand stats crew.old command.now (bench_of bench) (bench_of next) out.old.items out.new.items) }
{
    let mut steps = Steps::<L>::new(blank);
    let alone = match run_alone(alloc, bench, crew, command, &mut steps) {
        Ok(alone) => alone,
        Err((_, AloneError::NoMemory)) => return Err(AllocError),
        Err((_, AloneError::Spent)) => unreachable!(),
    };
    let Alone {
        bench,
        reply,
        tallies,
        dropped,
    } = alone;
    put_reply(crew.grammar(), &reply, out)?;
    put_shown(stats, &reply, &tallies, dropped, out)?;
    Ok(bench)
}

/// Answers a command: its lines are appended. Nobody reads the count of steps.
fn answer(
    alloc: Global,
    bench: Bench<GraphRows>,
    crew: &mut Crew,
    command: &Command,
    stats: bool,
    out: &mut Vec<u8>,
) -> Result<Bench<GraphRows>, AllocError>
    requires proper { IsProperCommand command.now }
    requires log { IsLogOfGrammar (bench_of bench).log crew.old }
    requires full { (bench_of bench).sizes.log ≡ LOG_LIMIT }
    requires pins { 0 < (bench_of bench).pins_left }
    ensures next { OnOk result (crew.new ≡ grammar_after crew.old command.now) }
    ensures answers { IfOk result (λ next. AnswersCommand stats crew.old command.now (bench_of bench) (bench_of next) out.old.items out.new.items) }
{
    answer_with::<Brand>(alloc, bench, crew, command, stats, out, Blank::new(1))
}

/// Answers a block: its lines are appended, and the bench is the one behind the block.
pub(crate) fn answer_block(
    alloc: Global,
    bench: Bench<GraphRows>,
    crew: &mut Crew,
    block: &Block,
    stats: bool,
    out: &mut Vec<u8>,
) -> Result<Bench<GraphRows>, AllocError>
    requires proper { IsProperBlock block.now }
    requires log { IsLogOfGrammar (bench_of bench).log crew.old }
    requires full { (bench_of bench).sizes.log ≡ LOG_LIMIT }
    requires pins { 0 < (bench_of bench).pins_left }
    ensures next { OnOk result (crew.new ≡ grammar_behind crew.old block.now) }
    ensures answers { IfOk result (λ next. AnswersBlock stats crew.old block.now (bench_of bench) (bench_of next) out.old.items out.new.items) }
{
    match block {
        Block::Alone(command) => answer(alloc, bench, crew, command, stats, out),
        Block::Par(_) => unreachable!(),
    }
}
