//! The steps of the editor's hand: the next entry of the log, the page in the
//! making, and the version that they make.

ghost use Rattle.std.specs.Prelude.{◌≡◌, ◌≢◌, ◌<◌, ◌≤◌};
ghost use Rattle.pin_rule.specs.declared.ops.Op.TheVariants as op;
ghost use Rattle.pin_rule.specs.Steps.{after_write_log, after_write_place, after_swap_current};
ghost use Rattle.pin_rule.specs.Keeps.{Keeps};
ghost use Rattle.pin_rule.specs.Told.{Tells, Meets};
ghost use Rattle.pin_rule.specs.Hands.{view_of, sizes_of, table_of};

use crate::content::Content;
use crate::hand::Hand;
use crate::ops::Op;

impl<C: Content> Hand<C> {
    /// Stores a word of the entry after the log.
    pub fn write_log(&mut self, entry: u32, index: u32, word: u64)
        requires share { (view_of self.old).share ≢ 0 }
        requires word { (entry < (sizes_of self.old).log) × (index < 32) }
        requires keeps { Keeps C.lawful C.fits (view_of self.old) (op.WriteLog entry index word) }
        ensures table { table_of self.new ≡ table_of self.old }
        ensures view { view_of self.new ≡ after_write_log (view_of self.old) entry index word }
    {
        self.store(Op::WriteLog { entry, index, word }, word)
    }

    /// Stores a place of the page in the making: 0 leaves it empty, else the
    /// word is the number of a row plus one.
    pub fn write_place(&mut self, page: u32, place: u32, word: u64)
        requires share { (view_of self.old).share ≢ 0 }
        requires place { (page < (sizes_of self.old).versions) × (place < (sizes_of self.old).places) }
        requires keeps { Keeps C.lawful C.fits (view_of self.old) (op.WritePlace page place word) }
        ensures table { table_of self.new ≡ table_of self.old }
        ensures view { view_of self.new ≡ after_write_place (view_of self.old) page place word }
    {
        self.store(Op::WritePlace { page, place, word }, word)
    }

    /// Leaves a word that names the new version and its page, with no pin taken.
    /// The low half of the word met counts the pins taken on the version before.
    pub fn swap_current(&mut self, version: u32, page: u32) -> u64
        requires share { (view_of self.old).share ≢ 0 }
        requires names { (version ≤ (sizes_of self.old).log) × (page < (sizes_of self.old).versions) }
        requires keeps { Keeps C.lawful C.fits (view_of self.old) (op.SwapCurrent version page) }
        ensures table { table_of self.new ≡ table_of self.old }
        ensures view { view_of self.new ≡ after_swap_current (view_of self.old) version page result }
        ensures told { Tells C.lawful C.fits (view_of self.new) }
        ensures met { Meets (view_of self.old) (op.SwapCurrent version page) result }
    {
        let named = 16 * version as u64 + page as u64;
        self.swap(Op::SwapCurrent { version, page }, 4_294_967_296 * named)
    }
}
