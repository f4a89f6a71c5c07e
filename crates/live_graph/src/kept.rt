//! Keys with their expansions, each made when it is first asked for.

ghost use Rattle.std.specs.Prelude.{◌≡◌, ◌≤◌, IfOk, OnOk, OnErr};
ghost use Rattle.indexmap.specs.IndexMap.{keys};
ghost use Rattle.item_sets.specs.Prefixes.{AreItems};
ghost use Rattle.item_sets.specs.Expansions.{IsCost};
ghost use Rattle.isg_states.specs.Expansion.{AreMarks, IsScanCost};
ghost use Rattle.live_graph.specs.Asking.{Asks};
ghost use Rattle.live_graph.specs.Kept.{all_own, HoldsScans, HoldsKernels, StandsScan, StandsKernel};

use crate::NoMemory;
use edit_log::Grammar;
use indexmap::IndexMap;
use isg_states::{ScanExpansion, ScanKey, expand_scan};
use item_sets::{Expansion, Kernel, expand};
use std::sync::ledger::Ledger;
use steps::Steps;

/// The place of the state among those that are kept. It is expanded now if it was not asked for before.
pub(crate) fn place_of_state<L: Ledger>(
    grammar: &Grammar,
    kept: &mut IndexMap<ScanKey, ScanExpansion>,
    key: &ScanKey,
    steps: &mut Steps<L>,
) -> Result<usize, NoMemory>
    requires marks { AreMarks grammar.now.grammar key.now }
    requires holds { HoldsScans grammar.now.grammar kept.old.entries }
    ensures stands { IfOk result (StandsScan grammar.now.grammar kept.new.entries key.now) }
    ensures asks { OnOk result (Asks (IsScanCost grammar.now.grammar) (all_own (keys kept.old)) key.now (all_own (keys kept.new)) steps.old steps.new) }
    ensures holds { HoldsScans grammar.now.grammar kept.new.entries }
    ensures refused { OnErr result (keys kept.new ≡ keys kept.old) }
    ensures never_back { steps.old ≤ steps.new }
{
    if let Some(place) = kept.get_index_of(key) {
        return Ok(place);
    }
    let own = key.clone()?;
    let expansion = expand_scan(*kept.allocator(), grammar, key, steps)?;
    let (place, _) = kept.insert_full(own, expansion)?;
    Ok(place)
}

/// The place of the kernel among those that are kept. It is expanded now if it was not asked for before.
pub(crate) fn place_of_kernel<L: Ledger>(
    grammar: &Grammar,
    kept: &mut IndexMap<Kernel, Expansion>,
    key: &Kernel,
    steps: &mut Steps<L>,
) -> Result<usize, NoMemory>
    requires items { AreItems grammar.now.grammar.rules key.now }
    requires holds { HoldsKernels grammar.now.grammar kept.old.entries }
    ensures stands { IfOk result (StandsKernel grammar.now.grammar kept.new.entries key.now) }
    ensures asks { OnOk result (Asks (IsCost grammar.now.grammar.rules) (all_own (keys kept.old)) key.now (all_own (keys kept.new)) steps.old steps.new) }
    ensures holds { HoldsKernels grammar.now.grammar kept.new.entries }
    ensures refused { OnErr result (keys kept.new ≡ keys kept.old) }
    ensures never_back { steps.old ≤ steps.new }
{
    if let Some(place) = kept.get_index_of(key) {
        return Ok(place);
    }
    let copy = key.clone()?;
    let expansion = expand(*kept.allocator(), grammar, key, steps)?;
    let (place, _) = kept.insert_full(copy, expansion)?;
    Ok(place)
}
