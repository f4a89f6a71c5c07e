//! One command, while nobody else uses the table.

ghost use Rattle.std.specs.Prelude.{◌≡◌, ◌↔◌, ◌<◌, ◌≤◌, ◌+◌, length, IfOk, IfErr, OnOk, OnErr};
ghost use Rattle.script_text.specs.declared.command.Command.TheVariants.{Edit as an_edit, Parse as a_parse, Tokens as a_scan, Stats as a_count};
ghost use Rattle.script_text.specs.declared.limits.TheConstants.{TEXT_LIMIT};
ghost use Rattle.edit_log.specs.declared.limits.TheConstants.{LOG_LIMIT};
ghost use Rattle.edit_log.specs.History.{Grammar};
ghost use Rattle.edit_log.specs.Verdict.{IsProper, verdict};
ghost use Rattle.graph_content.specs.Contents.{IsLogOfGrammar};
ghost use Rattle.pin_rule.specs.Lists.{Each};
ghost use Rattle.slot_store.specs.Quiet.{IsQuiet};
ghost use Rattle.version_store.specs.Means.{bench_of};
ghost use Rattle.replies.specs.Replies.{IsReply, grammar_after};
ghost use Rattle.replies.specs.Blocks.{IsProperCommand};
ghost use Rattle.sections.specs.Commands.{pins_for};
ghost use Rattle.sections.specs.Alone.{ServesNext, IsSpent};
ghost use Rattle.sections.specs.Laziness.{none_tallied, EditsRows, ParsesOver, ScansOver, CountsOver, SharesRows, DropsBy, DropsRows, ComesBack};
ghost use Rattle.sections.specs.Held.{ScansKey, AddsRowsOf};
ghost use Rattle.sections.specs.Recording.{AddsSteps, RecordsText, RecordsEdit, RecordsParse, RecordsCommand};

use crate::crew::Crew;
use crate::editing::edit_bench;
use crate::holding::count_held;
use crate::texts::{parse_text, scan_text};
use grammar_text::{Edit, Text};
use graph_content::GraphRows;
use live_graph::{Tallies, Tally};
use replies::Reply;
use script_text::Command;
use std::alloc::Global;
use std::sync::ledger::Ledger;
use steps::Steps;
use version_store::bench::Bench;

/// What came of a command.
#[derive(Drop)]
pub struct Alone {
    /// The bench, for the next command.
    pub bench: Bench<GraphRows>,
    /// What is answered.
    pub reply: Reply,
    /// How the expansions came that the command asked for.
    pub tallies: Tallies,
    /// How many rows of item sets and of scanner states the command dropped: those of the keys that an edit affects.
    pub dropped: (u32, u32),
}

/// Why a command was not answered.
#[derive(Clone, Copy, Debug, PartialEq, Eq)]
pub enum AloneError {
    /// All pins of the table were taken.
    Spent,
    /// Memory ran out.
    NoMemory,
}

/// A command that asked for no expansion.
fn none_asked() -> Tallies
    ensures { result ≡ none_tallied }
{
    let none = Tally {
        reached: 0,
        made: 0,
        found: 0,
        raced: 0,
        alone: 0,
    };
    Tallies {
        items: none,
        scan: none,
    }
}

/// Makes the edit, where the grammar takes it.
fn edit_alone(
    alloc: Global,
    bench: Bench<GraphRows>,
    crew: &mut Crew,
    edit: &Edit,
) -> Result<Alone, (Bench<GraphRows>, AloneError)>
    requires proper { IsProper edit.now }
    requires log { IsLogOfGrammar (bench_of bench).log crew.old }
    requires full { (bench_of bench).sizes.log ≡ LOG_LIMIT }
    ensures replied { IfOk result (λ alone. IsReply crew.old (an_edit edit.now) alone.reply) }
    ensures next { OnOk result (crew.new ≡ grammar_after crew.old (an_edit edit.now)) }
    ensures stays { OnErr result (crew.new ≡ crew.old) }
    ensures serves { IfOk result (λ alone. ServesNext (bench_of bench) (bench_of alone.bench) crew.new) }
    ensures back { IfErr result (λ refused. ServesNext (bench_of bench) (bench_of refused.0) crew.new) }
    ensures pins { IfOk result (λ alone. (bench_of alone.bench).pins_left ≡ (bench_of bench).pins_left) }
    ensures edits { IfOk result (λ alone. EditsRows crew.old edit.now alone.tallies (bench_of bench).graph (bench_of alone.bench).graph) }
    ensures drops { IfOk result (λ alone. DropsBy (verdict crew.old edit.now) crew.old edit.now (bench_of bench).graph alone.dropped) }
    ensures records { IfOk result (λ alone. AddsSteps (bench_of bench) (bench_of alone.bench) (RecordsEdit alone.reply)) }
    ensures untouched { IfErr result (λ refused. refused.0 ≡ bench) }
    ensures not_spent { IfErr result (λ refused. refused.1 ≡ AloneError.NoMemory) }
{
    let mut bench = bench;
    match edit_bench(alloc, &mut bench, &mut crew.grammar, edit) {
        Ok((reply, dropped)) => Ok(Alone {
            bench,
            reply,
            tallies: none_asked(),
            dropped,
        }),
        Err(_) => Err((bench, AloneError::NoMemory)),
    }
}

/// Parses the text over a pin of its own.
fn parse_alone<L: Ledger>(
    alloc: Global,
    bench: Bench<GraphRows>,
    crew: &mut Crew,
    text: &Text,
    steps: &mut Steps<L>,
) -> Result<Alone, (Bench<GraphRows>, AloneError)>
    requires short { length text.now ≤ TEXT_LIMIT }
    requires log { IsLogOfGrammar (bench_of bench).log crew.old }
    ensures replied { IfOk result (λ alone. IsReply crew.old (a_parse text.now) alone.reply) }
    ensures stays { crew.new ≡ crew.old }
    ensures serves { IfOk result (λ alone. ServesNext (bench_of bench) (bench_of alone.bench) crew.new) }
    ensures back { IfErr result (λ refused. ServesNext (bench_of bench) (bench_of refused.0) crew.new) }
    ensures pins { IfOk result (λ alone. (bench_of alone.bench).pins_left + 1 ≡ (bench_of bench).pins_left) }
    ensures parses { IfOk result (λ alone. ParsesOver (bench_of bench).sizes crew.old text.now alone.reply alone.tallies steps.old steps.new
        (bench_of bench).graph (bench_of alone.bench).graph) }
    ensures drops { IfOk result (λ alone. alone.dropped ≡ (0, 0)) }
    ensures records { IfOk result (λ alone. AddsSteps (bench_of bench) (bench_of alone.bench)
        (RecordsParse (bench_of bench).sizes (bench_of bench).log crew.old text.now alone.reply)) }
    ensures untouched { IfErr result (λ refused. refused.1 ≡ AloneError.Spent → refused.0 ≡ bench) }
    ensures rows { IfErr result (λ refused. AddsRowsOf crew.old (bench_of bench).graph (bench_of refused.0).graph) }
    ensures spent { IsSpent result ↔ ((bench_of bench).pins_left ≡ 0) }
{
    let page = match bench.pin() {
        Ok(page) => page,
        Err((bench, _)) => return Err((bench, AloneError::Spent)),
    };
    let version = crew.grammar.version();
    let parsed = parse_text(
        alloc,
        &mut crew.parser,
        &crew.grammar,
        page,
        text.bytes(),
        steps,
    );
    let (page, outcome, tallies) = match parsed {
        Ok(done) => done,
        Err((page, _)) => return Err((page.unpin(), AloneError::NoMemory)),
    };
    Ok(Alone {
        bench: page.unpin(),
        reply: Reply::Parse { version, outcome },
        tallies,
        dropped: (0, 0),
    })
}

/// Scans the text over a pin of its own.
fn scan_alone<L: Ledger>(
    alloc: Global,
    bench: Bench<GraphRows>,
    crew: &mut Crew,
    text: &Text,
    steps: &mut Steps<L>,
) -> Result<Alone, (Bench<GraphRows>, AloneError)>
    requires short { length text.now ≤ TEXT_LIMIT }
    requires log { IsLogOfGrammar (bench_of bench).log crew.old }
    ensures replied { IfOk result (λ alone. IsReply crew.old (a_scan text.now) alone.reply) }
    ensures stays { crew.new ≡ crew.old }
    ensures serves { IfOk result (λ alone. ServesNext (bench_of bench) (bench_of alone.bench) crew.new) }
    ensures back { IfErr result (λ refused. ServesNext (bench_of bench) (bench_of refused.0) crew.new) }
    ensures pins { IfOk result (λ alone. (bench_of alone.bench).pins_left + 1 ≡ (bench_of bench).pins_left) }
    ensures scans { IfOk result (λ alone. ScansOver (bench_of bench).sizes crew.old text.now alone.tallies steps.old steps.new
        (bench_of bench).graph (bench_of alone.bench).graph) }
    ensures drops { IfOk result (λ alone. alone.dropped ≡ (0, 0)) }
    ensures records { IfOk result (λ alone. AddsSteps (bench_of bench) (bench_of alone.bench)
        (RecordsText (bench_of bench).sizes (bench_of bench).log crew.old (ScansKey crew.old text.now))) }
    ensures untouched { IfErr result (λ refused. refused.1 ≡ AloneError.Spent → refused.0 ≡ bench) }
    ensures rows { IfErr result (λ refused. AddsRowsOf crew.old (bench_of bench).graph (bench_of refused.0).graph) }
    ensures spent { IsSpent result ↔ ((bench_of bench).pins_left ≡ 0) }
{
    let page = match bench.pin() {
        Ok(page) => page,
        Err((bench, _)) => return Err((bench, AloneError::Spent)),
    };
    let version = crew.grammar.version();
    let scanned = scan_text(alloc, &crew.grammar, page, text.bytes(), steps);
    let (page, result, tallies) = match scanned {
        Ok(done) => done,
        Err((page, _)) => return Err((page.unpin(), AloneError::NoMemory)),
    };
    let bench = page.unpin();
    Ok(Alone {
        bench,
        reply: Reply::Tokens { version, result },
        tallies,
        dropped: (0, 0),
    })
}

/// Tells how many keys the page holds.
fn count_alone(bench: Bench<GraphRows>) -> Alone
    ensures replied { (grammar : Grammar) → IsReply grammar a_count result.reply }
    ensures serves { (grammar : Grammar) → IsLogOfGrammar (bench_of bench).log grammar
        → ServesNext (bench_of bench) (bench_of result.bench) grammar }
    ensures pins { (bench_of result.bench).pins_left ≡ (bench_of bench).pins_left }
    ensures counts { (grammar : Grammar) → IsLogOfGrammar (bench_of bench).log grammar
        → CountsOver grammar result.reply result.tallies (bench_of bench).graph (bench_of result.bench).graph }
    ensures drops { result.dropped ≡ (0, 0) }
    ensures records { AddsSteps (bench_of bench) (bench_of result.bench) (Each IsQuiet) }
{
    let mut bench = bench;
    let (items, scan) = count_held(&mut bench);
    Alone {
        bench,
        reply: Reply::Held { items, scan },
        tallies: none_asked(),
        dropped: (0, 0),
    }
}

/// Answers a command. The bench comes back in any case, for the next command, and so does the crew.
///
/// A text finds the rows that the bench has, and leaves there what it makes. The steps count that and nothing else.
///
/// A text takes a pin of the table, which lasts as long as its parse. Where memory runs out, the pin is dropped too, and
/// counts as taken.
pub fn run_alone<L: Ledger>(
    alloc: Global,
    bench: Bench<GraphRows>,
    crew: &mut Crew,
    command: &Command,
    steps: &mut Steps<L>,
) -> Result<Alone, (Bench<GraphRows>, AloneError)>
    requires proper { IsProperCommand command.now }
    requires log { IsLogOfGrammar (bench_of bench).log crew.old }
    requires full { (bench_of bench).sizes.log ≡ LOG_LIMIT }
    ensures replied { IfOk result (λ alone. IsReply crew.old command.now alone.reply) }
    ensures next { OnOk result (crew.new ≡ grammar_after crew.old command.now) }
    ensures stays { OnErr result (crew.new ≡ crew.old) }
    ensures serves { IfOk result (λ alone. ServesNext (bench_of bench) (bench_of alone.bench) crew.new) }
    ensures back { IfErr result (λ refused. ServesNext (bench_of bench) (bench_of refused.0) crew.new) }
    ensures pins { IfOk result (λ alone. (bench_of alone.bench).pins_left + pins_for command.now ≡ (bench_of bench).pins_left) }
    ensures shares { IfOk result (λ alone. SharesRows (bench_of bench).sizes crew.old command.now alone.reply alone.tallies steps.old steps.new
        (bench_of bench).graph (bench_of alone.bench).graph) }
    ensures drops { IfOk result (λ alone. DropsRows crew.old command.now (bench_of bench).graph alone.dropped) }
    ensures records { IfOk result (λ alone. AddsSteps (bench_of bench) (bench_of alone.bench)
        (RecordsCommand (bench_of bench).sizes (bench_of bench).log crew.old command.now alone.reply)) }
    ensures untouched { IfErr result (λ refused. ComesBack command.now refused.1 bench refused.0) }
    ensures rows { IfErr result (λ refused. AddsRowsOf crew.old (bench_of bench).graph (bench_of refused.0).graph) }
    ensures spent { IsSpent result ↔ ((bench_of bench).pins_left < pins_for command.now) }
{
    match command {
        Command::Edit(edit) => edit_alone(alloc, bench, crew, edit),
        Command::Parse(text) => parse_alone(alloc, bench, crew, text, steps),
        Command::Tokens(text) => scan_alone(alloc, bench, crew, text, steps),
        Command::Stats => Ok(count_alone(bench)),
    }
}
