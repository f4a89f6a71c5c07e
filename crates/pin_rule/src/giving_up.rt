//! The steps of the editor's hand on a version that is given up.

ghost use Rattle.std.specs.Prelude.{◌≡◌, ◌≢◌, ◌<◌};
ghost use Rattle.pin_rule.specs.declared.ops.Op.TheVariants as op;
ghost use Rattle.pin_rule.specs.Steps.{after_load_release, after_free_row};
ghost use Rattle.pin_rule.specs.Keeps.{Keeps};
ghost use Rattle.pin_rule.specs.Told.{Tells, Meets};
ghost use Rattle.pin_rule.specs.Hands.{view_of, sizes_of, table_of};

use crate::content::Content;
use crate::hand::Hand;
use crate::ops::Op;

impl<C: Content> Hand<C> {
    /// Loads the release word of a page: the pins dropped on it over the table's
    /// life. Where it shows that each pin of the oldest version was dropped, that
    /// version leaves the live ones and is given up from its first place on.
    pub fn load_release(&mut self, page: u32) -> u64
        requires share { (view_of self.old).share ≢ 0 }
        requires page { page < (sizes_of self.old).versions }
        requires keeps { Keeps C.lawful C.fits (view_of self.old) (op.LoadRelease page) }
        ensures table { table_of self.new ≡ table_of self.old }
        ensures view { view_of self.new ≡ after_load_release (view_of self.old) page result }
        ensures told { Tells C.lawful C.fits (view_of self.new) }
        ensures met { Meets (view_of self.old) (op.LoadRelease page) result }
    {
        self.load(Op::LoadRelease { page })
    }

    /// Stores 0 at the claim word of a row that stands at the place reached of
    /// the version that is given up. The row is free, and the next place comes.
    pub fn free_row(&mut self, row: u32)
        requires share { (view_of self.old).share ≢ 0 }
        requires row { row < (sizes_of self.old).rows }
        requires keeps { Keeps C.lawful C.fits (view_of self.old) (op.FreeRow row) }
        ensures table { table_of self.new ≡ table_of self.old }
        ensures view { view_of self.new ≡ after_free_row (view_of self.old) row }
    {
        self.store(Op::FreeRow { row }, 0)
    }
}
