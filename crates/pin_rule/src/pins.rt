//! The steps of one hand on pins, and on the log.

ghost use Rattle.std.specs.Prelude.{◌≡◌, ◌≢◌, ◌<◌};
ghost use mathlib.Core.Option as maybe;
ghost use lib.ListN.{get_elem?};
ghost use Rattle.pin_rule.specs.declared.content.Entry.{Entry};
ghost use Rattle.pin_rule.specs.declared.ops.Op.TheVariants as op;
ghost use Rattle.pin_rule.specs.Steps.{after_pin, after_unpin, after_load_log};
ghost use Rattle.pin_rule.specs.Keeps.{Keeps};
ghost use Rattle.pin_rule.specs.Told.{Tells, Meets, IsCurrentFor, NamesNewest};
ghost use Rattle.pin_rule.specs.Hands.{view_of, sizes_of, table_of};

use crate::content::Content;
use crate::hand::Hand;
use crate::ops::Op;

impl<C: Content> Hand<C> {
    /// Takes a pin on the current version. The word met names it: its high half
    /// is 16 times the version plus the number of its page.
    pub fn pin(&mut self) -> u64
        requires share { (view_of self.old).share ≢ 0 }
        requires keeps { Keeps C.lawful C.fits (view_of self.old) op.Pin }
        ensures table { table_of self.new ≡ table_of self.old }
        ensures view { view_of self.new ≡ after_pin (view_of self.old) result }
        ensures told { Tells C.lawful C.fits (view_of self.new) }
        ensures met { IsCurrentFor (view_of self.old) result }
        ensures newest { NamesNewest (view_of self.old) result }
    {
        self.add(Op::Pin)
    }

    /// Drops the pin on the page's version.
    pub fn unpin(&mut self, page: u32) -> u64
        requires share { (view_of self.old).share ≢ 0 }
        requires page { page < (sizes_of self.old).versions }
        requires keeps { Keeps C.lawful C.fits (view_of self.old) (op.Unpin page) }
        ensures table { table_of self.new ≡ table_of self.old }
        ensures view { view_of self.new ≡ after_unpin (view_of self.old) page result }
    {
        self.add(Op::Unpin { page })
    }

    /// Loads a word of an entry of the log.
    pub fn load_log(&mut self, entry: u32, index: u32) -> u64
        requires share { (view_of self.old).share ≢ 0 }
        requires word { (entry < (sizes_of self.old).log) × (index < 32) }
        requires keeps { Keeps C.lawful C.fits (view_of self.old) (op.LoadLog entry index) }
        ensures table { table_of self.new ≡ table_of self.old }
        ensures view { view_of self.new ≡ after_load_log (view_of self.old) entry index result }
        ensures told { Tells C.lawful C.fits (view_of self.new) }
        ensures met { Meets (view_of self.old) (op.LoadLog entry index) result }
    {
        self.load(Op::LoadLog { entry, index })
    }
}
