//! What the graph tells of a kernel, copied out of its hands.

ghost use Rattle.std.specs.Prelude.{◌≡◌, ◌≤◌, length, IfOk, OnOk};
ghost use Rattle.item_sets.specs.Prefixes.{AreItems};
ghost use Rattle.live_graph.specs.Asking.{AsksKernel};
ghost use Rattle.parser_states.specs.Asked.{StandsButKernels};
ghost use Rattle.parser_states.specs.Known.{known_moves};
ghost use Rattle.parser_states.specs.Rows.{IsCopied};

use crate::moves::MoveLists;
use crate::rows::Part;
use forest::RuleId;
use item_sets::Kernel;
use live_graph::{Graph, NoMemory};
use std::sync::ledger::Ledger;
use steps::Steps;

/// Asks the graph for the kernel, appends its moves and takes down the rules that are finished in it.
pub(crate) fn copy_expansion<G: Graph, L: Ledger>(
    graph: &mut G,
    kernel: &Kernel,
    moves: &mut MoveLists,
    finished: &mut Vec<RuleId>,
    steps: &mut Steps<L>,
) -> Result<Part, NoMemory>
    requires { AreItems (G.means graph.old).grammar.rules kernel.now }
    ensures copies { IfOk result (IsCopied (G.means graph.old).grammar.rules kernel.now (known_moves moves.old) (known_moves moves.new) finished.new.items) }
    ensures grows { length moves.old.symbols.items ≤ length moves.new.symbols.items }
    ensures asks { OnOk result (AsksKernel (G.means graph.old) kernel.now (G.means graph.new) steps.old steps.new) }
    ensures stands { StandsButKernels (G.means graph.old) (G.means graph.new) }
    ensures never_back { steps.old ≤ steps.new }
{
    let expansion = graph.expansion(kernel, steps)?;
    finished.clear();
    finished.extend_from_slice(expansion.reductions.as_slice())?;
    let part = moves.add(expansion.moves.as_slice())?;
    Ok(part)
}
