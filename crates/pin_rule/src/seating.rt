//! How hands of one table are split and joined. Both load word 0.

ghost use Rattle.std.specs.Prelude.{◌≡◌, ◌≢◌, ◌≤◌};
ghost use Rattle.pin_rule.specs.Steps.{after_split, split_off, after_join};
ghost use Rattle.pin_rule.specs.Keeps.{KeepsSplit, KeepsJoin};
ghost use Rattle.pin_rule.specs.Hands.{view_of, table_of};

use crate::content::Content;
use crate::hand::Hand;
use crate::view_changes::Both;
use std::marker::Brand;

impl<C: Content> Hand<C> {
    /// Gives half of the share, rounded down, and some of the pins left to a new
    /// hand of this table.
    pub fn split(&mut self, pins: u32) -> Hand<C>
        requires share { (view_of self.old).share ≢ 0 }
        requires pins { pins ≤ (view_of self.old).pins_left }
        requires keeps { KeepsSplit C.lawful C.fits (view_of self.old) pins }
        ensures tables { (table_of self.new ≡ table_of self.old) × (table_of result ≡ table_of self.old) }
        ensures left { view_of self.new ≡ after_split (view_of self.old) pins }
        ensures new { view_of result ≡ split_off (view_of self.old) pins }
    {
        self.split_as::<Brand>(pins)
    }

    /// Takes in another hand of this table, with its share, its pins left, its
    /// facts and its steps.
    pub fn join(&mut self, other: Hand<C>)
        requires table { table_of other ≡ table_of self.old }
        requires shares { ((view_of self.old).share ≢ 0) × ((view_of other).share ≢ 0) }
        requires keeps { KeepsJoin C.lawful C.fits (view_of self.old) (view_of other) }
        ensures table { table_of self.new ≡ table_of self.old }
        ensures view { view_of self.new ≡ after_join (view_of self.old) (view_of other) }
    {
        let Hand {
            table: theirs,
            seat,
            starts: _,
        } = other;
        let table = self.table.value();
        table.shared.join_seat::<Both>(&mut self.seat, seat);
        self.table.join(theirs);
    }
}
