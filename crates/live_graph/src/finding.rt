//! Looks for the expansions of keys in a page.

ghost use Rattle.std.specs.Prelude.{◌≡◌, ◌<◌, ℕ, List, length, IfOk, OnErr};
ghost use Rattle.item_sets.specs.declared.expansion.Expansion.{Expansion as AnExpansion};
ghost use Rattle.isg_states.specs.declared.ranges.ScanExpansion.{ScanExpansion as AScanExpansion};
ghost use Rattle.slot_store.specs.Keys.{row_of};
ghost use Rattle.graph_content.specs.Contents.{FitsLog};
ghost use Rattle.live_graph.specs.Answers.{HasPassed, HasLooked, CodesItems, CodesScan, CanReadItems, CanReadScan};

use crate::NoMemory;
use graph_content::{GraphRows, read_items, read_scan};
use isg_states::ScanExpansion;
use item_sets::Expansion;
use slot_store::page::{Look, Page};
use std::alloc::Global;

/// The expansion of an item set that the page has under this key.
pub(crate) fn find_items<P: Page<GraphRows>>(
    alloc: Global,
    page: &mut P,
    key: &[u64],
) -> Result<Option<Expansion>, NoMemory>
    requires key { 0 < length key.now }
    requires readable { (payload : List ℕ) → FitsLog (P.means page.old).log (row_of key.now payload) → CanReadItems payload }
    ensures looks { IfOk result (HasLooked CodesItems (P.means page.old) (P.means page.new) key.now) }
    ensures refused { OnErr result (HasPassed (P.means page.old) (P.means page.new)) }
{
    match page.find(key) {
        Look::Found(payload) => {
            let expansion = read_items(alloc, payload)?;
            Ok(Some(expansion))
        }
        Look::Initial { place: _ } => Ok(None),
        Look::PageFull => Ok(None),
    }
}

/// The expansion of a scanner state that the page has under this key.
pub(crate) fn find_scan<P: Page<GraphRows>>(
    alloc: Global,
    page: &mut P,
    key: &[u64],
) -> Result<Option<ScanExpansion>, NoMemory>
    requires key { 0 < length key.now }
    requires readable { (payload : List ℕ) → FitsLog (P.means page.old).log (row_of key.now payload) → CanReadScan payload }
    ensures looks { IfOk result (HasLooked CodesScan (P.means page.old) (P.means page.new) key.now) }
    ensures refused { OnErr result (HasPassed (P.means page.old) (P.means page.new)) }
{
    match page.find(key) {
        Look::Found(payload) => {
            let expansion = read_scan(alloc, payload)?;
            Ok(Some(expansion))
        }
        Look::Initial { place: _ } => Ok(None),
        Look::PageFull => Ok(None),
    }
}
