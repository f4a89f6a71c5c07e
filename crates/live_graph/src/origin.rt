//! How expansions come to a graph over a page.

/// How the expansion of a key came to the graph that was asked for it.
#[derive(Clone, Copy, Debug, PartialEq, Eq)]
pub enum Origin {
    /// The page had it.
    Found,
    /// The graph made it, and put it into the page.
    Made,
    /// The graph made it, and another user had put it into the page meanwhile.
    Raced,
    /// The graph made it and keeps it alone: its row is too wide, or the page or the pool of rows is full.
    Alone,
}
