//! What the rows of a table hold.
ghost use Rattle.std.specs.Prelude.{ℕ, List};

/// One entry of the log.
pub struct Entry {
    /// The words of the entry, as they stand in the table.
    pub words: [u64; 32],
}

/// What rows mean: which logs are lawful, and which rows fit a lawful log. A
/// row is the list of its words.
pub trait Content {
    ghost use Rattle.std.specs.Prelude.{[]};
    ghost use Rattle.pin_rule.specs.declared.content.Entry.{Entry};

    ghost lawful: { List Entry → Type 0 };

    ghost fits: { List Entry → List ℕ → Type 0 };

    // The empty log is lawful.
    ghost empty: { lawful [] };
}

/// The content to which every log is lawful and which every row fits.
pub struct AnyRow;

impl Content for AnyRow {
    ghost lawful = { λ _. Unit {0} };

    ghost fits = { λ _ _. Unit {0} };

    ghost empty = { tt };
}
