//! The steps of one hand on one word.

ghost use Rattle.std.specs.Prelude.{◌≡◌, ◌≢◌, ◌<◌};
ghost use Rattle.pin_rule.specs.declared.ops.Op.TheVariants as op;
ghost use Rattle.pin_rule.specs.Steps.{after_load_place, after_load_row, after_claim, after_write_row, after_publish, after_give_back};
ghost use Rattle.pin_rule.specs.Keeps.{Keeps};
ghost use Rattle.pin_rule.specs.Told.{Tells, Meets};
ghost use Rattle.pin_rule.specs.Hands.{view_of, sizes_of, table_of};

use crate::content::Content;
use crate::hand::Hand;
use crate::ops::Op;

impl<C: Content> Hand<C> {
    /// Loads a place of a page: 0 where it is empty, else the number of the row
    /// there plus one.
    pub fn load_place(&mut self, page: u32, place: u32) -> u64
        requires share { (view_of self.old).share ≢ 0 }
        requires place { (page < (sizes_of self.old).versions) × (place < (sizes_of self.old).places) }
        requires keeps { Keeps C.lawful C.fits (view_of self.old) (op.LoadPlace page place) }
        ensures table { table_of self.new ≡ table_of self.old }
        ensures view { view_of self.new ≡ after_load_place (view_of self.old) page place result }
        ensures told { Tells C.lawful C.fits (view_of self.new) }
        ensures met { Meets (view_of self.old) (op.LoadPlace page place) result }
    {
        self.load(Op::LoadPlace { page, place })
    }

    /// Loads a word of a row.
    pub fn load_row(&mut self, row: u32, index: u32) -> u64
        requires share { (view_of self.old).share ≢ 0 }
        requires word { (row < (sizes_of self.old).rows) × (index < (sizes_of self.old).width) }
        requires keeps { Keeps C.lawful C.fits (view_of self.old) (op.LoadRow row index) }
        ensures table { table_of self.new ≡ table_of self.old }
        ensures view { view_of self.new ≡ after_load_row (view_of self.old) row index result }
        ensures told { Tells C.lawful C.fits (view_of self.new) }
        ensures met { Meets (view_of self.old) (op.LoadRow row index) result }
    {
        self.load(Op::LoadRow { row, index })
    }

    /// Exchanges 0 for 1 at the row's claim word. The row is the hand's own
    /// where the word met was 0; 1 says that it was in use.
    pub fn claim(&mut self, row: u32) -> u64
        requires share { (view_of self.old).share ≢ 0 }
        requires row { row < (sizes_of self.old).rows }
        requires keeps { Keeps C.lawful C.fits (view_of self.old) (op.Claim row) }
        ensures table { table_of self.new ≡ table_of self.old }
        ensures view { view_of self.new ≡ after_claim (view_of self.old) row result }
        ensures told { Tells C.lawful C.fits (view_of self.new) }
        ensures met { Meets (view_of self.old) (op.Claim row) result }
    {
        self.exchange(Op::Claim { row }, 1)
    }

    /// Stores a word of the hand's own row.
    pub fn write_row(&mut self, row: u32, index: u32, word: u64)
        requires share { (view_of self.old).share ≢ 0 }
        requires word { (row < (sizes_of self.old).rows) × (index < (sizes_of self.old).width) }
        requires keeps { Keeps C.lawful C.fits (view_of self.old) (op.WriteRow row index word) }
        ensures table { table_of self.new ≡ table_of self.old }
        ensures view { view_of self.new ≡ after_write_row (view_of self.old) row index word }
    {
        self.store(Op::WriteRow { row, index, word }, word)
    }

    /// Exchanges 0 for the row's number plus one at a place of a page. The row
    /// stands there where the word met was 0, and is no longer the hand's own.
    pub fn publish(&mut self, page: u32, place: u32, row: u32) -> u64
        requires share { (view_of self.old).share ≢ 0 }
        requires place { (page < (sizes_of self.old).versions) × (place < (sizes_of self.old).places) }
        requires keeps { Keeps C.lawful C.fits (view_of self.old) (op.Publish page place row) }
        ensures table { table_of self.new ≡ table_of self.old }
        ensures view { view_of self.new ≡ after_publish (view_of self.old) page place row result }
        ensures told { Tells C.lawful C.fits (view_of self.new) }
        ensures met { Meets (view_of self.old) (op.Publish page place row) result }
    {
        let entry = row as u64 + 1;
        self.exchange(Op::Publish { page, place, row }, entry)
    }

    /// Stores 0 at the claim word of the hand's own row, which is free again.
    pub fn give_back(&mut self, row: u32)
        requires share { (view_of self.old).share ≢ 0 }
        requires row { row < (sizes_of self.old).rows }
        requires keeps { Keeps C.lawful C.fits (view_of self.old) (op.GiveBack row) }
        ensures table { table_of self.new ≡ table_of self.old }
        ensures view { view_of self.new ≡ after_give_back (view_of self.old) row }
    {
        self.store(Op::GiveBack { row }, 0)
    }
}
