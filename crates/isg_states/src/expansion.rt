//! Where the bytes lead from a state.

ghost use Rattle.std.specs.Prelude.{◌≡◌, ◌+◌, ◌≤◌, ℕ, IfOk, OnOk};
ghost use Rattle.isg_states.specs.Expansion.{AreMarks, IsScanExpansionOf, IsScanCost};

use crate::NoMemory;
use crate::byte_ranges::byte_ranges;
use crate::candidates::candidates;
use crate::next_marks::next_marks;
use crate::ranges::{Ranges, ScanExpansion};
use crate::scan_key::ScanKey;
use edit_log::Grammar;
use std::alloc::Global;
use std::sync::ledger::Ledger;
use steps::Steps;

/// Where each byte leads from the state: from the start to the first positions of the live definitions whose
/// class has the byte, and from a set to the positions with the byte that follow a member. A step is taken for
/// each position that is first or that follows, whatever the byte.
pub fn expand_scan<L: Ledger>(
    alloc: Global,
    grammar: &Grammar,
    key: &ScanKey,
    steps: &mut Steps<L>,
) -> Result<ScanExpansion, NoMemory>
    requires { AreMarks grammar.now.grammar key.now }
    ensures expansion { IfOk result (λ found. IsScanExpansionOf grammar.now.grammar key.now found.ranges) }
    ensures steps { OnOk result ((cost : ℕ) × IsScanCost grammar.now.grammar key.now cost × (steps.new ≡ steps.old + cost)) }
    ensures counted { steps.old ≤ steps.new }
{
    let marks = next_marks(alloc, grammar, key, steps)?;
    let candidates = candidates(alloc, grammar, &marks)?;
    let ranges = byte_ranges(alloc, &candidates)?;
    Ok(ScanExpansion {
        ranges: Ranges::from_vec(ranges),
    })
}
