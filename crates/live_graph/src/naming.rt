//! What may be asked for is a key of the grammar. This is told to contracts, and nothing is done.

ghost use Rattle.item_sets.specs.Prefixes.{AreItems};
ghost use Rattle.isg_states.specs.Expansion.{AreMarks};
ghost use Rattle.graph_content.specs.Affected.{IsKey};
ghost use Rattle.live_graph.specs.Answers.{kernel_key, scan_key};

use edit_log::Grammar;
use isg_states::ScanKey;
use item_sets::Kernel;

/// The kernel is a key of the grammar.
pub(crate) fn is_kernel(_grammar: &Grammar, kernel: &Kernel)
    requires { AreItems _grammar.now.grammar.rules kernel.now }
    ensures { IsKey _grammar.now.grammar (kernel_key kernel.now) }
{
    kernel.items();
}

/// The state of the scanner is a key of the grammar.
pub(crate) fn is_state(_grammar: &Grammar, state: &ScanKey)
    requires { AreMarks _grammar.now.grammar state.now }
    ensures { IsKey _grammar.now.grammar (scan_key state.now) }
{
    match state {
        ScanKey::Start => {}
        ScanKey::Set(marks) => {
            marks.items();
        }
    }
}
