//! Expansions of keys, from a page or made anew.

ghost use Rattle.std.specs.Prelude.{◌≤◌, IfOk, OnErr};
ghost use Rattle.item_sets.specs.Prefixes.{AreItems};
ghost use Rattle.item_sets.specs.Expansions.{IsCost};
ghost use Rattle.isg_states.specs.Expansion.{AreMarks, IsScanCost};
ghost use Rattle.graph_content.specs.Contents.{IsLogOfGrammar};
ghost use Rattle.live_graph.specs.Answers.{HasPassed, HasCome, Pays, ExpandsKernel, ExpandsScan, kernel_key, scan_key};

use crate::NoMemory;
use crate::answer::Answer;
use crate::finding::{find_items, find_scan};
use crate::naming::{is_kernel, is_state};
use crate::offering::offer;
use crate::origin::Origin;
use edit_log::Grammar;
use graph_content::{GraphRows, item_key, item_payload, scan_payload};
use isg_states::{ScanExpansion, ScanKey, expand_scan};
use item_sets::{Expansion, Kernel, expand};
use slot_store::page::Page;
use std::alloc::Global;
use std::sync::ledger::Ledger;
use steps::Steps;

/// The expansion of the kernel: the page's, or else one that is made now and offered to the page. A call that is
/// refused has put no row there.
pub(crate) fn obtain_items<P: Page<GraphRows>, L: Ledger>(
    alloc: Global,
    grammar: &Grammar,
    page: &mut P,
    kernel: &Kernel,
    steps: &mut Steps<L>,
) -> Result<Answer<Expansion>, NoMemory>
    requires items { AreItems grammar.now.grammar.rules kernel.now }
    requires log { IsLogOfGrammar (P.means page.old).log grammar.now.grammar }
    ensures expansion { IfOk result (λ answer. ExpandsKernel grammar.now.grammar kernel.now answer.expansion) }
    ensures came { IfOk result (λ answer. HasCome grammar.now.grammar (P.means page.old) (P.means page.new) (kernel_key kernel.now) answer.origin) }
    ensures pays { IfOk result (λ answer. Pays (IsCost grammar.now.grammar.rules) kernel.now answer.origin steps.old steps.new) }
    ensures refused { OnErr result (HasPassed (P.means page.old) (P.means page.new)) }
    ensures never_back { steps.old ≤ steps.new }
{
    is_kernel(grammar, kernel);
    let key = item_key(alloc, kernel)?;
    if let Some(expansion) = find_items(alloc, page, &key)? {
        return Ok(Answer {
            expansion,
            origin: Origin::Found,
        });
    }
    let expansion = expand(alloc, grammar, kernel, steps)?;
    let payload = item_payload(alloc, &expansion)?;
    let origin = offer(page, &key, &payload);
    Ok(Answer { expansion, origin })
}

/// The expansion of the scanner's state: the page's, or else one that is made now and offered to the page. A call
/// that is refused has put no row there.
pub(crate) fn obtain_scan<P: Page<GraphRows>, L: Ledger>(
    alloc: Global,
    grammar: &Grammar,
    page: &mut P,
    state: &ScanKey,
    steps: &mut Steps<L>,
) -> Result<Answer<ScanExpansion>, NoMemory>
    requires marks { AreMarks grammar.now.grammar state.now }
    requires log { IsLogOfGrammar (P.means page.old).log grammar.now.grammar }
    ensures expansion { IfOk result (λ answer. ExpandsScan grammar.now.grammar state.now answer.expansion) }
    ensures came { IfOk result (λ answer. HasCome grammar.now.grammar (P.means page.old) (P.means page.new) (scan_key state.now) answer.origin) }
    ensures pays { IfOk result (λ answer. Pays (IsScanCost grammar.now.grammar) state.now answer.origin steps.old steps.new) }
    ensures refused { OnErr result (HasPassed (P.means page.old) (P.means page.new)) }
    ensures never_back { steps.old ≤ steps.new }
{
    is_state(grammar, state);
    let key = graph_content::scan_key(alloc, state)?;
    if let Some(expansion) = find_scan(alloc, page, &key)? {
        return Ok(Answer {
            expansion,
            origin: Origin::Found,
        });
    }
    let expansion = expand_scan(alloc, grammar, state, steps)?;
    let payload = scan_payload(alloc, &expansion)?;
    let origin = offer(page, &key, &payload);
    Ok(Answer { expansion, origin })
}
