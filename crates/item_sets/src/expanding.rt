//! The expansion of a kernel.

ghost use Rattle.std.specs.Prelude.{◌≡◌, ◌+◌, ◌≤◌, ℕ, IfOk, OnOk};
ghost use Rattle.edit_log.specs.Facts.{IsWellFormed};
ghost use Rattle.item_sets.specs.Prefixes.{AreItems};
ghost use Rattle.item_sets.specs.Expansions.{IsExpansionOf, IsCost};

use crate::NoMemory;
use crate::closure::closure_of;
use crate::expansion::{Expansion, Moves, Reductions};
use crate::kernel::Kernel;
use crate::walk::Walk;
use edit_log::Grammar;
use std::alloc::Global;
use std::sync::ledger::Ledger;
use steps::Steps;

/// Each grammar is well-formed. This is told to a contract, and nothing is done.
fn is_formed(grammar: &Grammar)
    ensures { IsWellFormed grammar.now.grammar }
{
    grammar.version();
}

/// The expansion of the kernel, with one step taken for each item of its closure.
pub fn expand<L: Ledger>(
    alloc: Global,
    grammar: &Grammar,
    kernel: &Kernel,
    steps: &mut Steps<L>,
) -> Result<Expansion, NoMemory>
    requires { AreItems grammar.now.grammar.rules kernel.now }
    ensures expansion { IfOk result (λ expansion. IsExpansionOf grammar.now.grammar.rules kernel.now expansion) }
    ensures steps { OnOk result ((cost : ℕ) × IsCost grammar.now.grammar.rules kernel.now cost × (steps.new ≡ steps.old + cost)) }
    ensures never_back { steps.old ≤ steps.new }
{
    is_formed(grammar);
    let walk = closure_of(alloc, grammar, kernel.items(), steps)?;
    let Walk {
        mut moves,
        mut reductions,
        ..
    } = walk;
    moves.sort_unstable_by_key(|entry| entry.0.0);
    reductions.sort_unstable();
    Ok(Expansion {
        moves: Moves::from_vec(moves),
        reductions: Reductions::from_vec(reductions),
    })
}
