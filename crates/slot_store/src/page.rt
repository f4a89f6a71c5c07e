//! One version of the shared rows.
ghost use Rattle.std.specs.Prelude.{◌≡◌, ◌<◌, ◌-◌, ◌+◌, ⊤, length, None, ◌↔◌};
ghost use mathlib.Core.Option.{none};
ghost use Rattle.std.specs.Borrow.{sem, follows_so};
ghost use Rattle.slot_store.specs.Keys.{row_of};
ghost use Rattle.slot_store.specs.Logs.{IsEntryOf};
ghost use Rattle.slot_store.specs.Answers.{Finds, LendsFitting, Publishes, ReadsLog};
ghost use Rattle.slot_store.specs.GraphAnswers.{WhereTold, LookTells, TellsPut};

use pin_rule::content::Content;

/// What a look for a key met.
#[derive(Drop)]
pub enum Look<'a> {
    /// The payload of the row with this key.
    Found(&'a [u64]),
    /// No row had this key: this place on its path was empty.
    Initial { place: u32 },
    /// All places held other keys.
    PageFull,
}

/// What became of a row that was to be published.
#[derive(Clone, Copy, Debug, PartialEq, Eq)]
pub enum Put {
    /// The row stands in the page now.
    Made,
    /// The page holds a row with this key.
    Already,
    /// All places held other keys.
    PageFull,
    /// All rows were in use.
    PoolFull,
    /// Key and payload together have more words than a row has for them.
    TooWide,
}

/// A page of the shared table, as one user of it.
///
/// A row has a key, which is not empty, and a payload. Each key has a path
/// through all places of the page, and stands at the first place of its path
/// that was empty when it was published (open addressing with linear probing).
///
/// Where the page tells its graph, which is its rows, a look finds a row exactly
/// where the graph has one with the key. A page that others extend meanwhile
/// cannot tell it.
pub trait Page<C: Content> {
    ghost use Rattle.slot_store.specs.Meaning.{Meaning};

    ghost means: { Self → Meaning };

    /// The number of the page's version.
    fn version(&self) -> u32
        ensures { result ≡ length (means self.now).log };

    /// An entry of the log of the page's version, which is lawful.
    fn log_entry(&mut self, index: u32) -> [u64; 32]
        requires { index < length (means self.old).log }
        ensures entry { IsEntryOf (means self.old).log index result }
        ensures lawful { C.lawful (means self.new).log }
        ensures read { ReadsLog (means self.old) (means self.new) };

    /// Looks for the row with this key.
    fn find(&mut self, key: &[u64]) -> Look<'_>
        requires { 0 < length key.now }
        ensures lent { LendsFitting (C.fits (means self.old).log) key.now result }
        ensures graph { WhereTold (means self.old).graph (LookTells (means self.old).sizes.places key.now result) }
        ensures* found { sem 𝓛 (follows_so Self.row Self.row self.entry.ghost_name none (λ _ _. ⊤)
            (λ n. Finds C.fits (means self.old) (means n) key.now result)) };

    /// Publishes a row, if the page has none with this key.
    fn publish(&mut self, key: &[u64], payload: &[u64]) -> Put
        requires key { 0 < length key.now }
        requires fits { C.fits (means self.old).log (row_of key.now payload.now) }
        ensures put { Publishes (means self.old) (means self.new) key.now payload.now result }
        ensures graph { TellsPut (means self.old) (means self.new) key.now payload.now result }
        ensures wide { (result ≡ Put.TooWide) ↔ ((means self.old).sizes.width - 2 < length key.now + length payload.now) }
        ensures free { (means self.new).own ≡ None };
}
