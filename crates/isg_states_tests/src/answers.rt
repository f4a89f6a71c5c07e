//! The answers of a grammar's look-ups, each alone.
//!
//! A contract of a look-up says the whole answer, and a proof over it is long. Behind these functions, which have
//! no contract, the answers are plain values.

use edit_log::{DefId, Grammar};
use isg_states::Mark;

pub(crate) fn version_of(grammar: &Grammar) -> u32 {
    grammar.version()
}

pub(crate) fn live_of(grammar: &Grammar) -> &[DefId] {
    grammar.live_defs()
}

pub(crate) fn number_of(mark: Mark) -> u64 {
    mark.number()
}
