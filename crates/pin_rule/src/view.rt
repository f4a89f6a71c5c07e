//! What a seat knows of its table. No value of [`View`] is made: it exists in
//! contracts and proofs alone.
use crate::content::Entry;
use crate::sizes::Sizes;
use std::collections::LinkedList;

/// The kinds of step. Each is one atomic operation on one word.
pub enum Kind {
    LoadPlace,
    LoadRow,
    Claim,
    WriteRow,
    Publish,
    GiveBack,
    Split,
    Join,
    Pin,
    Unpin,
    LoadLog,
    WriteLog,
    WritePlace,
    SwapCurrent,
    LoadRelease,
    FreeRow,
}

/// One step of a seat: the index of its word, the word met where the operation
/// tells it, and the word left where that is known.
pub struct Step {
    /// What was done.
    pub kind: Kind,
    /// The index of the word.
    pub word: u64,
    /// The word that the operation met, where it tells it.
    pub met: Option<u64>,
    /// The word that it left, where that is known.
    pub left: Option<u64>,
}

/// A pinned version and the number of its page.
pub struct Pin {
    /// The version that is pinned.
    pub version: u64,
    /// The page of that version.
    pub page: u64,
}

/// A row that the seat owns, with the words that it wrote so far as pairs of an
/// index and a word, one pair per index.
pub struct OwnRow {
    /// The number of the row.
    pub row: u64,
    /// The words written so far, each with its index.
    pub wrote: LinkedList<(u64, u64)>,
}

/// The row that stands at a place of a version's page.
pub struct EntryFact {
    /// The version whose page this is of.
    pub version: u64,
    /// The place of the page.
    pub place: u64,
    /// The row that stands there.
    pub row: u64,
}

/// The word at an index of a row that stands in a version's page.
pub struct WordFact {
    /// The version in whose page the row stands.
    pub version: u64,
    /// The row.
    pub row: u64,
    /// Which of its words.
    pub index: u64,
    /// That word.
    pub word: u64,
}

/// What stands at a place of the newest page, with the words of the row there
/// as pairs of an index and a word.
pub struct KnownPlace {
    /// The place of the newest page.
    pub place: u64,
    /// The word there: 0, or the number of a row plus one.
    pub met: u64,
    /// What is known of the words of that row.
    pub words: LinkedList<(u64, u64)>,
}

/// A live version: its page, the release word of that page when the version
/// began, and the rows that were carried into it.
pub struct Live {
    /// Its number, which is the length of its log.
    pub version: u64,
    /// The page that it has.
    pub page: u64,
    /// The release word of that page when the version began.
    pub base: u64,
    /// The rows that it took over from the version before.
    pub carried: LinkedList<u64>,
}

/// A live version that is not the newest, with the pins taken on it.
pub struct Older {
    /// The version.
    pub live: Live,
    /// The pins taken on it, which the swap after it met.
    pub taken: u64,
}

/// An entry and a page in the making, each with the words written so far, in
/// order from the first.
pub struct Making {
    /// The page of the version that is to follow.
    pub page: u64,
    /// The words of its entry that were written.
    pub entry: LinkedList<u64>,
    /// The places of its page that were written.
    pub places: LinkedList<u64>,
}

/// The version that is being given up, and the place of its page that comes
/// next.
pub struct GivingUp {
    /// Its number.
    pub version: u64,
    /// Its page.
    pub page: u64,
    /// The place whose row is the next to be freed or left.
    pub reached: u64,
}

/// What only the editor knows. The older versions stand newest first; the
/// release words that it knows of other pages are pairs of a page and a word.
pub struct Role {
    /// The version that the current word names.
    pub newest: Live,
    /// The live versions before it, newest first.
    pub older: LinkedList<Older>,
    /// Release words of pages that no live version has.
    pub released: LinkedList<(u64, u64)>,
    /// The version that is to follow, while it is written.
    pub making: Option<Making>,
    /// The version whose rows are being freed.
    pub giving_up: Option<GivingUp>,
}

/// What a seat knows. Facts stand newest first, steps oldest first. The words
/// that it loaded of the entry after its log stand in order from the first.
pub struct View {
    /// How large the table is.
    pub sizes: Sizes,
    /// The entries up to the version that it knows last.
    pub log: LinkedList<Entry>,
    /// Its parts of the right to the table, with the lender's right.
    pub share: u64,
    /// How many pins it may still take.
    pub pins_left: u64,
    /// The version that it pins.
    pub pinned: Option<Pin>,
    /// The row that it claimed and has not published or given back.
    pub own: Option<OwnRow>,
    /// The words that it loaded of the entry after its log.
    pub log_words: LinkedList<u64>,
    /// The rows that it met in pages.
    pub entries: LinkedList<EntryFact>,
    /// The words that it read of those rows.
    pub words: LinkedList<WordFact>,
    /// With the whole share, what stands in the newest page.
    pub known: LinkedList<KnownPlace>,
    /// What the editor knows, where this seat is the editor's.
    pub role: Option<Role>,
    /// The steps that it made.
    pub steps: LinkedList<Step>,
}
