//! What a scanner and a parser ask for expansions.

ghost use Rattle.std.specs.Prelude.{◌≡◌, ◌≤◌, IfOk, OnOk, OnErr};
ghost use Rattle.std.specs.Borrow.{sem};
ghost use Rattle.std.specs.Io.BufRead.{Rests};
ghost use Rattle.item_sets.specs.Prefixes.{AreItems};
ghost use Rattle.item_sets.specs.Expansions.{IsExpansionOf};
ghost use Rattle.isg_states.specs.Expansion.{AreMarks, IsScanExpansionOf};
ghost use Rattle.live_graph.specs.Asking.{AsksScan, AsksKernel};

use crate::NoMemory;
use edit_log::Grammar;
use isg_states::{ScanExpansion, ScanKey};
use item_sets::{Expansion, Kernel};
use std::sync::ledger::Ledger;
use steps::Steps;

/// A keeper of expansions in one grammar. Each is made when its key is first asked for.
pub trait Graph {
    ghost use Rattle.live_graph.specs.Meaning.{GraphMeaning};

    /// What a graph stands on, such as a page of a table that many share.
    ghost Base: { Type 0 };

    ghost means: { Self → GraphMeaning Base };

    /// The grammar whose expansions these are.
    fn grammar(&self) -> &Grammar
        ensures { result.now.grammar ≡ (means self.now).grammar };

    /// What the kernel expands to. A refused call leaves the graph as it was.
    fn expansion<L: Ledger>(
        &mut self,
        kernel: &Kernel,
        steps: &mut Steps<L>,
    ) -> Result<&Expansion, NoMemory>
        requires { AreItems (means self.old).grammar.rules kernel.now }
        ensures expansion { IfOk result (λ found. IsExpansionOf (means self.old).grammar.rules kernel.now found.now) }
        ensures never_back { steps.old ≤ steps.new }
        ensures* asks { sem 𝓛 (Rests Self.row self.entry (λ new.
            OnOk result (AsksKernel (means self.old) kernel.now (means new) steps.old steps.new)
            × OnErr result (means new ≡ means self.old))) };

    /// Where the bytes lead from the state. A refused call leaves the graph as it was.
    fn scan<L: Ledger>(
        &mut self,
        key: &ScanKey,
        steps: &mut Steps<L>,
    ) -> Result<&ScanExpansion, NoMemory>
        requires { AreMarks (means self.old).grammar key.now }
        ensures expansion { IfOk result (λ found. IsScanExpansionOf (means self.old).grammar key.now found.now.ranges) }
        ensures never_back { steps.old ≤ steps.new }
        ensures* asks { sem 𝓛 (Rests Self.row self.entry (λ new.
            OnOk result (AsksScan (means self.old) key.now (means new) steps.old steps.new)
            × OnErr result (means new ≡ means self.old))) };
}
