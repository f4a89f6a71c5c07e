//! What a graph over a page keeps for a key.

use crate::origin::Origin;

/// The expansion of a key, and how it came.
#[derive(Drop)]
pub(crate) struct Answer<E> {
    /// Where the key leads.
    pub(crate) expansion: E,
    /// Whether the page had that, or the graph made it, and what then became of its row.
    pub(crate) origin: Origin,
}
