//! Where the word of an operation lies.

ghost use Rattle.std.specs.Prelude.{◌≡◌, ◌<◌};
ghost use Rattle.pin_rule.specs.Layout.{claim_word, place_word, log_word, row_word, word_count};
ghost use Rattle.pin_rule.specs.Ops.{word_of, IsIn};

use crate::ops::Op;
use crate::sizes::Sizes;

/// Where the parts of a table of these sizes begin. It is found once a hand,
/// and not anew at each step.
#[derive(Clone, Copy)]
pub(crate) struct Starts {
    /// How large the table is.
    pub(crate) sizes: Sizes,
    /// The index of the first claim word.
    claims: usize,
    /// The index of the first place of page 0.
    pages: usize,
    /// The index of the first word of entry 0.
    log: usize,
    /// The index of the first word of row 0.
    rows: usize,
    ghost claims_is: { claims ≡ claim_word sizes 0 },
    ghost pages_is: { pages ≡ place_word sizes 0 0 },
    ghost log_is: { log ≡ log_word sizes 0 0 },
    ghost rows_is: { rows ≡ row_word sizes 0 0 },
}

impl Starts {
    pub(crate) fn of(sizes: Sizes) -> Starts
        ensures { result.sizes ≡ sizes }
    {
        Starts {
            sizes,
            claims: sizes.claims_start(),
            pages: sizes.pages_start(),
            log: sizes.log_start(),
            rows: sizes.rows_start(),
        }
    }

    fn claim_at(self, row: u32) -> usize
        requires { row < self.sizes.rows }
        ensures index { result ≡ claim_word self.sizes row }
        ensures inside { result < word_count self.sizes }
    {
        self.claims + row as usize
    }

    /// The index of the page's first place.
    pub(crate) fn page_at(self, page: u32) -> usize
        requires { page < self.sizes.versions }
        ensures { result ≡ place_word self.sizes page 0 }
    {
        self.pages + page as usize * self.sizes.places as usize
    }

    /// The index of the row's first word.
    pub(crate) fn row_from(self, row: u32) -> usize
        requires { row < self.sizes.rows }
        ensures { result ≡ row_word self.sizes row 0 }
    {
        self.rows + row as usize * self.sizes.width as usize
    }

    fn place_at(self, page: u32, place: u32) -> usize
        requires page { page < self.sizes.versions }
        requires place { place < self.sizes.places }
        ensures index { result ≡ place_word self.sizes page place }
        ensures inside { result < word_count self.sizes }
    {
        let at = page as usize * self.sizes.places as usize + place as usize;
        self.pages + at
    }

    fn log_at(self, entry: u32, index: u32) -> usize
        requires entry { entry < self.sizes.log }
        requires index { index < 32 }
        ensures index { result ≡ log_word self.sizes entry index }
        ensures inside { result < word_count self.sizes }
    {
        self.log + 32 * entry as usize + index as usize
    }

    fn row_at(self, row: u32, index: u32) -> usize
        requires row { row < self.sizes.rows }
        requires index { index < self.sizes.width }
        ensures index { result ≡ row_word self.sizes row index }
        ensures inside { result < word_count self.sizes }
    {
        let at = row as usize * self.sizes.width as usize + index as usize;
        self.rows + at
    }

    /// The index of the word that an operation names.
    pub(crate) fn index_of(self, op: Op) -> usize
        requires { IsIn self.sizes op }
        ensures index { result ≡ word_of self.sizes op }
        ensures inside { result < word_count self.sizes }
    {
        match op {
            Op::LoadPlace { page, place } => self.place_at(page, place),
            Op::LoadRow { row, index } => self.row_at(row, index),
            Op::Claim { row } => self.claim_at(row),
            Op::WriteRow {
                row,
                index,
                word: _,
            } => self.row_at(row, index),
            Op::Publish {
                page,
                place,
                row: _,
            } => self.place_at(page, place),
            Op::GiveBack { row } => self.claim_at(row),
            Op::Pin => 0,
            Op::Unpin { page } => 1 + page as usize,
            Op::LoadLog { entry, index } => self.log_at(entry, index),
            Op::WriteLog {
                entry,
                index,
                word: _,
            } => self.log_at(entry, index),
            Op::WritePlace {
                page,
                place,
                word: _,
            } => self.place_at(page, place),
            Op::SwapCurrent {
                version: _,
                page: _,
            } => 0,
            Op::LoadRelease { page } => 1 + page as usize,
            Op::FreeRow { row } => self.claim_at(row),
        }
    }
}
