//! A level of the stacks: the nodes and links at one place of the text.

/// Where the nodes and links of the last place begin. All later ones are at that place too.
#[derive(Clone, Copy)]
pub(crate) struct Level {
    /// The last place: how many tokens stand before it.
    pub(crate) at: u32,
    /// The number of the first node there.
    pub(crate) first_node: u32,
    /// The number of the first link up to there.
    pub(crate) first_link: u32,
}
