//! An edit of a bench.

ghost use Rattle.std.specs.Prelude.{◌≡◌, IfOk, OnOk, OnErr};
ghost use Rattle.script_text.specs.declared.command.Command.TheVariants.{Edit as an_edit};
ghost use Rattle.edit_log.specs.declared.limits.TheConstants.{LOG_LIMIT};
ghost use Rattle.edit_log.specs.Verdict.{IsProper, verdict};
ghost use Rattle.graph_content.specs.Contents.{IsLogOfGrammar};
ghost use Rattle.version_store.specs.Means.{bench_of};
ghost use Rattle.replies.specs.Replies.{IsReply, grammar_after};
ghost use Rattle.sections.specs.Editing.{LeavesRows};
ghost use Rattle.sections.specs.Alone.{ServesNext};
ghost use Rattle.sections.specs.Laziness.{DropsBy};
ghost use Rattle.sections.specs.Recording.{AddsSteps, RecordsEdit};

use edit_log::{Grammar, Refusal, may};
use grammar_text::Edit;
use graph_content::{GraphRows, Modify};
use live_graph::NoMemory;
use replies::Reply;
use std::alloc::{AllocError, Global};
use version_store::bench::Bench;

/// Makes the edit in the bench and in the grammar, where the grammar takes it. Told are the reply, and how many rows of
/// item sets and of scanner states the edit dropped. After an error both are as they were.
pub(crate) fn edit_bench(
    alloc: Global,
    bench: &mut Bench<GraphRows>,
    grammar: &mut Grammar,
    edit: &Edit,
) -> Result<(Reply, (u32, u32)), NoMemory>
    requires proper { IsProper edit.now }
    requires log { IsLogOfGrammar (bench_of bench.old).log grammar.old.grammar }
    requires full { (bench_of bench.old).sizes.log ≡ LOG_LIMIT }
    ensures replied { IfOk result (λ done. IsReply grammar.old.grammar (an_edit edit.now) done.0) }
    ensures next { OnOk result (grammar.new.grammar ≡ grammar_after grammar.old.grammar (an_edit edit.now)) }
    ensures serves { ServesNext (bench_of bench.old) (bench_of bench.new) grammar.new.grammar }
    ensures pins { (bench_of bench.new).pins_left ≡ (bench_of bench.old).pins_left }
    ensures kept { OnOk result (LeavesRows grammar.old.grammar edit.now (bench_of bench.old).graph (bench_of bench.new).graph) }
    ensures drops { IfOk result (λ done. DropsBy (verdict grammar.old.grammar edit.now) grammar.old.grammar edit.now (bench_of bench.old).graph done.1) }
    ensures records { IfOk result (λ done. AddsSteps (bench_of bench.old) (bench_of bench.new) (RecordsEdit done.0)) }
    ensures bench_stays { OnErr result (bench.new ≡ bench.old) }
    ensures grammar_stays { OnErr result (grammar.new.grammar ≡ grammar.old.grammar) }
{
    let entry = match may(alloc, grammar, edit) {
        Ok(entry) => entry,
        Err(Refusal::NoMemory) => return Err(AllocError),
        Err(refusal) => return Ok((Reply::Refused(refusal), (0, 0))),
    };
    let ready = grammar.prepare(&entry)?;
    let mut modify = Modify::new(grammar, ready.touch());
    let made = bench.edit_alone(&entry.words, &mut modify);
    let dropped = modify.dropped();
    match made {
        Ok(version) => {
            grammar.apply(ready);
            Ok((Reply::Edited { version }, dropped))
        }
        Err(_) => unreachable!(),
    }
}
