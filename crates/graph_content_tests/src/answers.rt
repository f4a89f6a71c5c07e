//! Answers that are used as plain values, each alone.
//!
//! A contract of a look-up says the whole answer, and a proof over it is long. These functions have no contract.

use edit_log::{Ready, Touch};
use graph_content::Modify;

pub(crate) fn touch_of(ready: &Ready) -> &Touch {
    ready.touch()
}

pub(crate) fn dropped_of(modify: &Modify<'_>) -> (u32, u32) {
    modify.dropped()
}
