//! Keys with their expansions, each found in a page or made when it is first asked for.

ghost use Rattle.std.specs.Prelude.{◌≡◌, ◌≤◌, ◌<◌, IfOk, OnOk, OnErr, length};
ghost use Rattle.item_sets.specs.Prefixes.{AreItems};
ghost use Rattle.item_sets.specs.Expansions.{IsCost};
ghost use Rattle.isg_states.specs.Expansion.{AreMarks, IsScanCost};
ghost use Rattle.graph_content.specs.Contents.{IsLogOfGrammar};
ghost use Rattle.live_graph.specs.Asking.{Asks};
ghost use Rattle.live_graph.specs.Sharing.{asked_with};
ghost use Rattle.live_graph.specs.Answers.{HasPassed, HoldsAnswers, StandsAnswer, AddsKey, origins, ExpandsKernel, ExpandsScan, kernel_key, scan_key};

use crate::NoMemory;
use crate::answer::Answer;
use crate::obtaining::{obtain_items, obtain_scan};
use edit_log::Grammar;
use graph_content::GraphRows;
use indexmap::IndexMap;
use isg_states::{ScanExpansion, ScanKey};
use item_sets::{Expansion, Kernel};
use slot_store::page::Page;
use std::alloc::AllocError;
use std::sync::ledger::Ledger;
use steps::Steps;

/// The most keys of one kind that are counted.
const MOST_KEYS: usize = 4_294_967_295;

/// The place of the kernel among those that are kept. Its expansion is found or made now if it was not asked for
/// before.
pub(crate) fn place_of_items<P: Page<GraphRows>, L: Ledger>(
    grammar: &Grammar,
    page: &mut P,
    kept: &mut IndexMap<Kernel, Answer<Expansion>>,
    kernel: &Kernel,
    steps: &mut Steps<L>,
) -> Result<usize, NoMemory>
    requires items { AreItems grammar.now.grammar.rules kernel.now }
    requires log { IsLogOfGrammar (P.means page.old).log grammar.now.grammar }
    requires holds { HoldsAnswers (ExpandsKernel grammar.now.grammar) kept.old.entries }
    requires few { length kept.old.entries < 4294967296 }
    ensures stands { IfOk result (StandsAnswer (ExpandsKernel grammar.now.grammar) kept.new.entries kernel.now) }
    ensures asks { OnOk result (Asks (IsCost grammar.now.grammar.rules) (asked_with (origins kept.old.entries)) kernel.now
        (asked_with (origins kept.new.entries)) steps.old steps.new) }
    ensures grows { OnOk result (AddsKey grammar.now.grammar kernel_key (P.means page.old) (P.means page.new) kernel.now kept.old.entries kept.new.entries) }
    ensures holds { HoldsAnswers (ExpandsKernel grammar.now.grammar) kept.new.entries }
    ensures few { length kept.new.entries < 4294967296 }
    ensures refused { OnErr result (kept.new.entries ≡ kept.old.entries) }
    ensures later { OnErr result (HasPassed (P.means page.old) (P.means page.new)) }
    ensures never_back { steps.old ≤ steps.new }
{
    if let Some(place) = kept.get_index_of(kernel) {
        return Ok(place);
    }
    if kept.len() >= MOST_KEYS {
        return Err(AllocError);
    }
    let own = kernel.clone()?;
    kept.reserve(1)?;
    let answer = obtain_items(*kept.allocator(), grammar, page, kernel, steps)?;
    let (place, _) = kept.insert_full(own, answer)?;
    Ok(place)
}

/// The place of the scanner's state among those that are kept. Its expansion is found or made now if it was not
/// asked for before.
pub(crate) fn place_of_scan<P: Page<GraphRows>, L: Ledger>(
    grammar: &Grammar,
    page: &mut P,
    kept: &mut IndexMap<ScanKey, Answer<ScanExpansion>>,
    state: &ScanKey,
    steps: &mut Steps<L>,
) -> Result<usize, NoMemory>
    requires marks { AreMarks grammar.now.grammar state.now }
    requires log { IsLogOfGrammar (P.means page.old).log grammar.now.grammar }
    requires holds { HoldsAnswers (ExpandsScan grammar.now.grammar) kept.old.entries }
    requires few { length kept.old.entries < 4294967296 }
    ensures stands { IfOk result (StandsAnswer (ExpandsScan grammar.now.grammar) kept.new.entries state.now) }
    ensures asks { OnOk result (Asks (IsScanCost grammar.now.grammar) (asked_with (origins kept.old.entries)) state.now
        (asked_with (origins kept.new.entries)) steps.old steps.new) }
    ensures grows { OnOk result (AddsKey grammar.now.grammar scan_key (P.means page.old) (P.means page.new) state.now kept.old.entries kept.new.entries) }
    ensures holds { HoldsAnswers (ExpandsScan grammar.now.grammar) kept.new.entries }
    ensures few { length kept.new.entries < 4294967296 }
    ensures refused { OnErr result (kept.new.entries ≡ kept.old.entries) }
    ensures later { OnErr result (HasPassed (P.means page.old) (P.means page.new)) }
    ensures never_back { steps.old ≤ steps.new }
{
    if let Some(place) = kept.get_index_of(state) {
        return Ok(place);
    }
    if kept.len() >= MOST_KEYS {
        return Err(AllocError);
    }
    let own = state.clone()?;
    kept.reserve(1)?;
    let answer = obtain_scan(*kept.allocator(), grammar, page, state, steps)?;
    let (place, _) = kept.insert_full(own, answer)?;
    Ok(place)
}
