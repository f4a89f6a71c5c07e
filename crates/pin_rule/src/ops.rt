//! The operations of a seat on one word, and where the parts of the table begin.

ghost use Rattle.std.specs.Prelude.{◌≡◌};
ghost use Rattle.pin_rule.specs.Layout.{claim_word, place_word, log_word, row_word, word_count, full_sizes};

use crate::limits::{MOST_ENTRIES, MOST_PINS, MOST_PLACES, MOST_ROWS, MOST_VERSIONS, MOST_WIDTH};
use crate::sizes::Sizes;

/// One operation on one word, by its kind and its arguments.
#[derive(Clone, Copy)]
pub enum Op {
    LoadPlace { page: u32, place: u32 },
    LoadRow { row: u32, index: u32 },
    Claim { row: u32 },
    WriteRow { row: u32, index: u32, word: u64 },
    Publish { page: u32, place: u32, row: u32 },
    GiveBack { row: u32 },
    Pin,
    Unpin { page: u32 },
    LoadLog { entry: u32, index: u32 },
    WriteLog { entry: u32, index: u32, word: u64 },
    WritePlace { page: u32, place: u32, word: u64 },
    SwapCurrent { version: u32, page: u32 },
    LoadRelease { page: u32 },
    FreeRow { row: u32 },
}

impl Sizes {
    /// The largest sizes.
    pub fn full() -> Sizes
        ensures { result ≡ full_sizes }
    {
        Sizes {
            log: MOST_ENTRIES,
            versions: MOST_VERSIONS,
            places: MOST_PLACES,
            rows: MOST_ROWS,
            width: MOST_WIDTH,
            pins: MOST_PINS,
        }
    }

    pub(crate) fn claims_start(self) -> usize
        ensures { result ≡ claim_word self 0 }
    {
        1 + self.versions as usize
    }

    pub(crate) fn pages_start(self) -> usize
        ensures { result ≡ place_word self 0 0 }
    {
        self.claims_start() + self.rows as usize
    }

    pub(crate) fn log_start(self) -> usize
        ensures { result ≡ log_word self 0 0 }
    {
        self.pages_start() + self.versions as usize * self.places as usize
    }

    pub(crate) fn rows_start(self) -> usize
        ensures { result ≡ row_word self 0 0 }
    {
        self.log_start() + 32 * self.log as usize
    }

    /// How many words the table has.
    pub(crate) fn words(self) -> usize
        ensures { result ≡ word_count self }
    {
        self.rows_start() + self.rows as usize * self.width as usize
    }
}
