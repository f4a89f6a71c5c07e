//! What an edit touches.

use crate::definitions::DefIds;
use forest::{RuleId, SymbolId};

/// What an edit touches, so that what was made of a grammar can be kept where the edit leaves it as it was.
#[derive(Debug, Drop)]
pub struct Touch {
    /// The left side of the rule that is added or dropped.
    pub left: Option<SymbolId>,
    /// The rule that is dropped.
    pub gone_rule: Option<RuleId>,
    /// Whether the live definitions change.
    pub scan: bool,
    /// The definitions that are no longer live afterwards, in their order.
    pub gone_defs: DefIds,
}
