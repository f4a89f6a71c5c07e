//! How often expansions came in each way.

ghost use Rattle.std.specs.Prelude.{◌≡◌};
ghost use Rattle.live_graph.specs.Tallying.{none_counted};

/// How many distinct keys of one kind a graph was asked for, and how many of their expansions came in each way.
#[derive(Clone, Copy, Debug, PartialEq, Eq)]
pub struct Tally {
    /// All keys: the sum of the others.
    pub reached: u32,
    /// Those whose expansion the graph made and put into the page.
    pub made: u32,
    /// Those that the page had.
    pub found: u32,
    /// Those that another user put into the page, while the graph made the expansion.
    pub raced: u32,
    /// Those whose expansion the graph keeps alone.
    pub alone: u32,
}

/// The tallies of item sets and of scanner states.
#[derive(Clone, Copy, Debug, PartialEq, Eq)]
pub struct Tallies {
    /// The tally of item sets, whose keys are kernels.
    pub items: Tally,
    /// The tally of the scanner's states.
    pub scan: Tally,
}

impl Tally {
    /// No key.
    pub(crate) fn none() -> Tally
        ensures { result ≡ none_counted }
    {
        Tally {
            reached: 0,
            made: 0,
            found: 0,
            raced: 0,
            alone: 0,
        }
    }
}
