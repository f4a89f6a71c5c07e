//! What serves the commands of a run, one after the other.

ghost use Rattle.std.specs.Prelude.{◌≡◌, ◌<◌, IfOk, OnOk};
ghost use Rattle.edit_log.specs.declared.limits.TheConstants.{LOG_LIMIT};
ghost use Rattle.edit_log.specs.History.{empty_grammar};
ghost use Rattle.pin_rule.specs.Layout.{full_sizes};
ghost use Rattle.version_store.specs.Meaning.{IsNewBench};
ghost use Rattle.version_store.specs.Means.{bench_of};
ghost use Rattle.graph_content.specs.Contents.{IsLogOfGrammar};
ghost use Rattle.replies.specs.Blocks.{IsProperBlock, grammar_behind};
ghost use Rattle.workbench.specs.Benches.{AnswersBlock};
ghost use Rattle.workbench.specs.Serving.{HasBench, bench_in};

use crate::answering::answer_block;
use graph_content::GraphRows;
use pin_rule::sizes::Sizes;
use script_text::Block;
use sections::Crew;
use std::alloc::{AllocError, Global};
use std::marker::Model;
use version_store::bench::Bench;

/// A bench that nobody else uses, and what is kept beside it from command to command. A contract sees the grammar and what
/// the bench means. There is none any more where a command was not answered.
#[derive(Drop)]
pub(crate) struct Server {
    /// The shared table, whole.
    bench: Option<Bench<GraphRows>>,
    /// The grammar after the commands so far, and the parser.
    crew: Crew,
}

impl Model for Server {
    ghost use Rattle.workbench.specs.Serving.{ServerMeaning, bench_in};

    ghost Value = { ServerMeaning };

    ghost view = { λ server. record { grammar = server.crew; bench = bench_in server.bench } };
}

/// A new bench of the largest sizes.
fn make_bench(alloc: Global) -> Result<Bench<GraphRows>, AllocError>
    ensures { IfOk result (λ bench. IsNewBench full_sizes (bench_of bench)) }
{
    Bench::make(alloc, Sizes::full())
}

impl Server {
    /// Over a new bench of the largest sizes, with the empty grammar.
    pub(crate) fn open(alloc: Global) -> Result<Server, AllocError>
        ensures grammar { IfOk result (λ server. server.grammar ≡ empty_grammar) }
        ensures bench { IfOk result (λ server. HasBench server.bench (IsNewBench full_sizes)) }
    {
        let crew = Crew::new(alloc)?;
        let bench = make_bench(alloc)?;
        Ok(Server {
            bench: Some(bench),
            crew,
        })
    }

    /// Answers a block: the lines of the reply are appended, and those that tell how lazy it was, where they are asked for.
    pub(crate) fn answer(
        &mut self,
        alloc: Global,
        block: &Block,
        stats: bool,
        out: &mut Vec<u8>,
    ) -> Result<(), AllocError>
        requires proper { IsProperBlock block.now }
        requires log { HasBench self.old.bench (λ bench. IsLogOfGrammar bench.log self.old.grammar) }
        requires full { HasBench self.old.bench (λ bench. bench.sizes.log ≡ LOG_LIMIT) }
        requires pins { HasBench self.old.bench (λ bench. 0 < bench.pins_left) }
        ensures next { OnOk result (self.new.grammar ≡ grammar_behind self.old.grammar block.now) }
        ensures answers { OnOk result (HasBench self.old.bench (λ old. HasBench self.new.bench (λ new.
            AnswersBlock stats self.old.grammar block.now old new out.old.items out.new.items))) }
    {
        let Some(bench) = self.bench.take() else {
            unreachable!()
        };
        let bench = answer_block(alloc, bench, &mut self.crew, block, stats, out)?;
        self.bench = Some(bench);
        Ok(())
    }

    /// The bench, which the commands left so.
    pub(crate) fn into_bench(self) -> Option<Bench<GraphRows>>
        ensures { bench_in result ≡ self.bench }
    {
        let Server { bench, .. } = self;
        bench
    }
}
