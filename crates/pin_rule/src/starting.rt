//! Steps on the words of a row or of a page whose start is taken once.

ghost use Rattle.std.specs.Prelude.{◌≡◌, ◌≢◌, ◌<◌};
ghost use Rattle.pin_rule.specs.declared.ops.Op.TheVariants as op;
ghost use Rattle.pin_rule.specs.Layout.{place_word, row_word};
ghost use Rattle.pin_rule.specs.Steps.{after_load_place, after_load_row, after_write_row, after_write_place};
ghost use Rattle.pin_rule.specs.Keeps.{Keeps};
ghost use Rattle.pin_rule.specs.Told.{Tells, Meets};
ghost use Rattle.pin_rule.specs.Hands.{view_of, sizes_of, table_of};

use crate::content::Content;
use crate::hand::Hand;
use crate::ops::Op;

impl<C: Content> Hand<C> {
    /// The index of the row's first word. It makes no step.
    pub fn row_start(&self, row: u32) -> usize
        requires { row < (sizes_of self.now).rows }
        ensures { result ≡ row_word (sizes_of self.now) row 0 }
    {
        self.starts.row_from(row)
    }

    /// The index of the page's first place. It makes no step.
    pub fn page_start(&self, page: u32) -> usize
        requires { page < (sizes_of self.now).versions }
        ensures { result ≡ place_word (sizes_of self.now) page 0 }
    {
        self.starts.page_at(page)
    }

    /// Loads a word of the row that starts there, as `load_row` does.
    pub fn load_row_at(&mut self, start: usize, row: u32, index: u32) -> u64
        requires start { start ≡ row_word (sizes_of self.old) row 0 }
        requires share { (view_of self.old).share ≢ 0 }
        requires word { (row < (sizes_of self.old).rows) × (index < (sizes_of self.old).width) }
        requires keeps { Keeps C.lawful C.fits (view_of self.old) (op.LoadRow row index) }
        ensures table { table_of self.new ≡ table_of self.old }
        ensures view { view_of self.new ≡ after_load_row (view_of self.old) row index result }
        ensures told { Tells C.lawful C.fits (view_of self.new) }
        ensures met { Meets (view_of self.old) (op.LoadRow row index) result }
    {
        self.load_at(Op::LoadRow { row, index }, start + index as usize)
    }

    /// Stores a word of the hand's own row, which starts there, as `write_row`
    /// does.
    pub fn write_row_at(&mut self, start: usize, row: u32, index: u32, word: u64)
        requires start { start ≡ row_word (sizes_of self.old) row 0 }
        requires share { (view_of self.old).share ≢ 0 }
        requires word { (row < (sizes_of self.old).rows) × (index < (sizes_of self.old).width) }
        requires keeps { Keeps C.lawful C.fits (view_of self.old) (op.WriteRow row index word) }
        ensures table { table_of self.new ≡ table_of self.old }
        ensures view { view_of self.new ≡ after_write_row (view_of self.old) row index word }
    {
        let at = start + index as usize;
        self.store_at(Op::WriteRow { row, index, word }, at, word)
    }

    /// Loads a place of the page that starts there, as `load_place` does.
    pub fn load_place_at(&mut self, start: usize, page: u32, place: u32) -> u64
        requires start { start ≡ place_word (sizes_of self.old) page 0 }
        requires share { (view_of self.old).share ≢ 0 }
        requires place { (page < (sizes_of self.old).versions) × (place < (sizes_of self.old).places) }
        requires keeps { Keeps C.lawful C.fits (view_of self.old) (op.LoadPlace page place) }
        ensures table { table_of self.new ≡ table_of self.old }
        ensures view { view_of self.new ≡ after_load_place (view_of self.old) page place result }
        ensures told { Tells C.lawful C.fits (view_of self.new) }
        ensures met { Meets (view_of self.old) (op.LoadPlace page place) result }
    {
        self.load_at(Op::LoadPlace { page, place }, start + place as usize)
    }

    /// Stores a place of the page in the making, which starts there, as
    /// `write_place` does.
    pub fn write_place_at(&mut self, start: usize, page: u32, place: u32, word: u64)
        requires start { start ≡ place_word (sizes_of self.old) page 0 }
        requires share { (view_of self.old).share ≢ 0 }
        requires place { (page < (sizes_of self.old).versions) × (place < (sizes_of self.old).places) }
        requires keeps { Keeps C.lawful C.fits (view_of self.old) (op.WritePlace page place word) }
        ensures table { table_of self.new ≡ table_of self.old }
        ensures view { view_of self.new ≡ after_write_place (view_of self.old) page place word }
    {
        let at = start + place as usize;
        self.store_at(Op::WritePlace { page, place, word }, at, word)
    }
}
