//! Why an edit made no version.

/// Why an edit made no version.
#[derive(Clone, Copy, PartialEq, Eq)]
pub enum EditError {
    /// As many versions as there are pages are live, and the oldest of them is
    /// still pinned. Told are that one, how many pins were taken on it, and how
    /// many of those were dropped.
    VersionsFull {
        version: u32,
        taken: u32,
        released: u32,
    },
    /// The log has as many entries as it has room for.
    LogFull {
        entries: u32,
    },
}

/// The log has as many entries as it has room for.
#[derive(Clone, Copy, PartialEq, Eq)]
pub struct LogFull {
    /// How many entries the log has.
    pub entries: u32,
}
