//! How a user reads the log.

ghost use Rattle.std.specs.Prelude.{◌≡◌, ◌<◌, ◌≤◌, ◌+◌, length, []};
ghost use Rattle.pin_rule.specs.Hands.{view_of, table_of};
ghost use Rattle.pin_rule.specs.Views.{now};
ghost use Rattle.pin_rule.specs.Told.{Tells};
ghost use Rattle.slot_store.specs.Logs.{IsBehind, CatchesUp, ReadsKnown, IsEntryOf};
ghost use Rattle.slot_store.specs.Walks.{IsAtWork};

use crate::site::Site;
use pin_rule::content::Content;
use pin_rule::hand::Hand;

/// Reads the entry after the hand's log, which grows by it.
fn read_next<C: Content>(hand: &mut Hand<C>, site: Site, entry: u32)
    requires behind { IsBehind site (view_of hand.old) entry }
    requires entry { entry < site.version }
    ensures table { table_of hand.new ≡ table_of hand.old }
    ensures read { CatchesUp site (view_of hand.old) (view_of hand.new) (entry + 1) }
    ensures told { Tells C.lawful C.fits (view_of hand.new) }
{
    for index in 0..31 {
        hand.load_log(entry, index);
    }
    hand.load_log(entry, 31);
}

/// Reads the entries of the log from the front up to the site's version.
pub(crate) fn catch_up<C: Content>(hand: &mut Hand<C>, site: Site, front: u32)
    requires behind { IsBehind site (view_of hand.old) front }
    requires front { front ≤ site.version }
    requires told { Tells C.lawful C.fits (view_of hand.old) }
    ensures table { table_of hand.new ≡ table_of hand.old }
    ensures caught_up { CatchesUp site (view_of hand.old) (view_of hand.new) site.version }
    ensures told { Tells C.lawful C.fits (view_of hand.new) }
{
    for entry in front..site.version {
        read_next(hand, site, entry);
    }
}

/// Reads an entry that the hand's log has.
pub(crate) fn read_known<C: Content>(hand: &mut Hand<C>, site: Site, entry: u32) -> [u64; 32]
    requires work { IsAtWork site (view_of hand.old) }
    requires entry { entry < site.version }
    ensures table { table_of hand.new ≡ table_of hand.old }
    ensures entry { IsEntryOf (view_of hand.old).log entry result }
    ensures read { ReadsKnown (view_of hand.old) (view_of hand.new) }
    ensures told { Tells C.lawful C.fits (view_of hand.new) }
{
    let mut words = [0u64; 32];
    for index in 0..32 {
        words[index as usize] = hand.load_log(entry, index);
    }
    words
}
