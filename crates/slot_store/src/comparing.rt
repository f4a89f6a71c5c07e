//! Whether a row of the page has a key.

ghost use Rattle.std.specs.Prelude.{◌≡◌, ◌<◌, Some, IsTrue};
ghost use Rattle.pin_rule.specs.Hands.{view_of, table_of};
ghost use Rattle.pin_rule.specs.Steps.{version_of};
ghost use Rattle.pin_rule.specs.Told.{Tells};
ghost use Rattle.slot_store.specs.Walks.{IsAtWork, Compares};

use crate::site::Site;
use pin_rule::content::Content;
use pin_rule::hand::Hand;

/// Reads the words of the row up to the first that differs from the key's.
pub(crate) fn has_key<C: Content>(hand: &mut Hand<C>, site: Site, row: u32, key: &[u64]) -> bool
    requires work { IsAtWork site (view_of hand.old) }
    requires row { row < site.sizes.rows }
    requires known { version_of (view_of hand.old).entries row ≡ Some site.version }
    ensures table { table_of hand.new ≡ table_of hand.old }
    ensures compared { Compares site (view_of hand.old) (view_of hand.new) row key.now (IsTrue result) }
    ensures told { Tells C.lawful C.fits (view_of hand.new) }
{
    let start = hand.row_start(row);
    if hand.load_row_at(start, row, 0) != key.len() as u64 {
        return false;
    }
    for i in 0..key.len() {
        if hand.load_row_at(start, row, i as u32 + 2) != key[i] {
            return false;
        }
    }
    true
}
