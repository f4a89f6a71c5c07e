//! Where a byte leads from a state, asked of the graph.

ghost use Rattle.std.specs.Prelude.{◌≡◌, ◌≤◌, ◌<◌, ℕ, IfOk, OnOk, MatchOption, Contains};
ghost use Rattle.isg_states.specs.declared.scan_key.ScanKey.{ScanKey};
ghost use Rattle.isg_states.specs.Expansion.{Range, AreMarks};
ghost use Rattle.live_graph.specs.Asking.{AsksScan};
ghost use Rattle.isg_scan.specs.Asked.{StandsButScans};
ghost use Rattle.isg_scan.specs.States.{IsInRange, IsLed};

use isg_states::ScanKey;
use live_graph::{Graph, NoMemory};
use std::sync::ledger::Ledger;
use steps::Steps;

/// Bytes from the first to the second, and the state to which they lead.
pub(crate) type Led = (u8, u8, ScanKey);

/// The range that has the byte.
fn range_of(ranges: &[Led], byte: u8) -> Option<&Led>
    ensures { MatchOption result ((range : Range) → Contains ranges.now range → IsInRange range byte → ⊥)
        (λ found. Contains ranges.now found.now × IsInRange found.now byte) }
{
    for range in ranges {
        if range.0 <= byte && byte <= range.1 {
            return Some(range);
        }
    }
    None
}

/// Where the byte leads from the state: to a state with the bytes that lead there, or nowhere.
pub(crate) fn led<G: Graph, L: Ledger>(
    graph: &mut G,
    key: &ScanKey,
    byte: u8,
    steps: &mut Steps<L>,
) -> Result<Option<Led>, NoMemory>
    requires { AreMarks (G.means graph.old).grammar key.now }
    ensures led { IfOk result (IsLed (G.means graph.old).grammar key.now byte) }
    ensures asks { OnOk result (AsksScan (G.means graph.old) key.now (G.means graph.new) steps.old steps.new) }
    ensures stands { StandsButScans (G.means graph.old) (G.means graph.new) }
    ensures never_back { steps.old ≤ steps.new }
{
    let expansion = graph.scan(key, steps)?;
    match range_of(expansion.ranges.as_slice(), byte) {
        Some(range) => Ok(Some((range.0, range.1, range.2.clone()?))),
        None => Ok(None),
    }
}
