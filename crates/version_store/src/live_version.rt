//! A version that is live, without the rows that were carried into it.

/// A live version, its page, and the release word of that page when the version
/// began.
#[derive(Clone, Copy)]
pub(crate) struct LiveVersion {
    /// Its number.
    pub(crate) version: u32,
    /// Its page.
    pub(crate) page: u32,
    /// The release word of that page when the version began.
    pub(crate) base: u64,
}

/// A live version that is not the newest, with the pins taken on it.
#[derive(Clone, Copy, Drop)]
pub(crate) struct OlderVersion {
    /// The version.
    pub(crate) live: LiveVersion,
    /// The pins taken on it.
    pub(crate) taken: u32,
}
