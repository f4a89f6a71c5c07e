//! What a walk is for.

use parser_states::Reduction;

/// A reduction from a top node, along all trails that go through one link and through none behind it.
#[derive(Clone, Copy)]
pub(crate) struct Walk {
    /// What is made at the end of each trail.
    pub(crate) reduction: Reduction,
    /// The node in which its rule is finished, where the trails begin.
    pub(crate) top: u32,
    /// The newest link of each trail.
    pub(crate) through: u32,
}
