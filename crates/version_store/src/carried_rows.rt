//! Which rows were carried into the version of a page.

ghost use Rattle.std.specs.Prelude.{◌≡◌, ◌≢◌, ◌<◌, ◌≤◌, ◌+◌, ◌*◌, ◌++◌, [], ℕ, List, suc, true, false, IfOk};
ghost use Rattle.std.specs.Prelude.{length, take, drop, replicate, slice_index};
ghost use Rattle.pin_rule.specs.Making.{rows_of};
ghost use Rattle.pin_rule.specs.Lists.{is_in};
ghost use Rattle.version_store.specs.Marks.{is_marked, AreMarked, AreOther};

use crate::NoMemory;
use pin_rule::sizes::Sizes;
use std::alloc::Global;

/// For each page, which rows were carried into the version that has it. A mark
/// says nothing of a page that no live version has.
#[derive(Drop)]
pub(crate) struct CarriedRows {
    /// How large the table is.
    pub(crate) sizes: Sizes,
    /// For each page, a mark for each row.
    marks: Vec<bool>,
    ghost room: { length marks.items ≡ sizes.versions * sizes.rows },
}

/// Whether eight words of places are all 0, so that they name no row.
fn are_empty(eight: &[u64]) -> bool
    requires { length eight.now ≡ 8 }
    ensures { result ≡ true → (i : ℕ) → slice_index eight.now i ≡ 0 }
{
    let all = eight[0] | eight[1] | eight[2] | eight[3] | eight[4] | eight[5] | eight[6] | eight[7];
    if all != 0 {
        return false;
    }
    true
}

/// Leaves so many rows unmarked, from this mark on.
fn unmark(marks: &mut [bool], start: usize, count: usize)
    requires { start + count ≤ length marks.old }
    ensures { marks.new ≡ take start marks.old ++ (replicate count false ++ drop (start + count) marks.old) }
{
    marks[start..start + count].fill(false);
}

impl CarriedRows {
    /// No row is marked.
    pub(crate) fn new(alloc: Global, sizes: Sizes) -> Result<CarriedRows, NoMemory>
        ensures sizes { IfOk result (λ c. c.sizes ≡ sizes) }
        ensures none { IfOk result (λ c. (page row : ℕ) → is_marked c.sizes c.marks.items page row ≡ false) }
    {
        let count = sizes.versions as usize * sizes.rows as usize;
        let marks = Vec::from_elem(alloc, false, count)?;
        Ok(CarriedRows { sizes, marks })
    }

    /// Whether the row was carried into the version of the page.
    pub(crate) fn has(&self, page: u32, row: u32) -> bool
        requires page { page < self.now.sizes.versions }
        requires row { row < self.now.sizes.rows }
        ensures { result ≡ is_marked self.now.sizes self.now.marks.items page row }
    {
        self.marks[page as usize * self.sizes.rows as usize + row as usize]
    }

    fn set(&mut self, page: u32, row: u32, carried: bool)
        requires page { page < self.old.sizes.versions }
        requires row { row < self.old.sizes.rows }
        ensures sizes { self.new.sizes ≡ self.old.sizes }
        ensures here { is_marked self.new.sizes self.new.marks.items page row ≡ carried }
        ensures else_ { (p r : ℕ) → r < self.old.sizes.rows → AreOther p r page row
            → is_marked self.new.sizes self.new.marks.items p r ≡ is_marked self.old.sizes self.old.marks.items p r }
    {
        let at = page as usize * self.sizes.rows as usize + row as usize;
        self.marks[at] = carried;
    }

    /// Leaves no row of the page marked.
    fn clear(&mut self, page: u32)
        requires page { page < self.old.sizes.versions }
        ensures sizes { self.new.sizes ≡ self.old.sizes }
        ensures here { (row : ℕ) → row < self.old.sizes.rows → is_marked self.new.sizes self.new.marks.items page row ≡ false }
        ensures else_ { (p row : ℕ) → row < self.old.sizes.rows → p ≢ page
            → is_marked self.new.sizes self.new.marks.items p row ≡ is_marked self.old.sizes self.old.marks.items p row }
    {
        let start = page as usize * self.sizes.rows as usize;
        unmark(self.marks.as_mut_slice(), start, self.sizes.rows as usize);
    }

    /// Marks the rows that these words of places name, beside those that are
    /// marked, and sets the words to 0.
    fn note_places(&mut self, page: u32, part: &mut [u64])
        requires page { page < self.old.sizes.versions }
        requires rows { (place row : ℕ) → slice_index part.old place ≡ suc row → row < self.old.sizes.rows }
        ensures sizes { self.new.sizes ≡ self.old.sizes }
        ensures noted { (before : List ℕ) → AreMarked self.old.sizes self.old.marks.items page before
            → AreMarked self.new.sizes self.new.marks.items page (before ++ part.old) }
        ensures emptied { part.new ≡ replicate (length part.old) 0 }
        ensures else_ { (p row : ℕ) → row < self.old.sizes.rows → p ≢ page
            → is_marked self.new.sizes self.new.marks.items p row ≡ is_marked self.old.sizes self.old.marks.items p row }
    {
        for place in 0..part.len() {
            let word = part[place];
            if word == 0 {
                continue;
            }
            part[place] = 0;
            self.set(page, (word - 1) as u32, true);
        }
    }

    /// Marks the rows that these words of places name, and no other row of the
    /// page. The words are 0 afterwards.
    pub(crate) fn note(&mut self, page: u32, places: &mut [u64])
        requires page { page < self.old.sizes.versions }
        requires rows { (place row : ℕ) → slice_index places.old place ≡ suc row → row < self.old.sizes.rows }
        ensures sizes { self.new.sizes ≡ self.old.sizes }
        ensures here { (row : ℕ) → row < self.old.sizes.rows
            → is_marked self.new.sizes self.new.marks.items page row ≡ is_in row (rows_of places.old) }
        ensures emptied { places.new ≡ replicate (length places.old) 0 }
        ensures else_ { (p row : ℕ) → row < self.old.sizes.rows → p ≢ page
            → is_marked self.new.sizes self.new.marks.items p row ≡ is_marked self.old.sizes self.old.marks.items p row }
    {
        self.clear(page);
        let groups = places.len() / 8;
        for group in 0..groups {
            let at = group * 8;
            if are_empty(&places[at..at + 8]) {
                continue;
            }
            self.note_places(page, &mut places[at..at + 8]);
        }
        self.note_places(page, &mut places[groups * 8..]);
    }
}
