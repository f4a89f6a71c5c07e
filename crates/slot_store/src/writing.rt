//! How an own row is written.

ghost use Rattle.std.specs.Prelude.{◌≡◌, ◌≤◌, ◌<◌, ◌+◌, length};
ghost use Rattle.pin_rule.specs.Hands.{view_of, table_of};
ghost use Rattle.slot_store.specs.Keys.{row_of};
ghost use Rattle.slot_store.specs.Walks.{IsAtWork, OwnsRow, Writes, WritesRow};

use crate::site::Site;
use pin_rule::content::Content;
use pin_rule::hand::Hand;

/// Writes words from an index of the row on.
fn write_words<C: Content>(hand: &mut Hand<C>, site: Site, row: u32, from: u32, words: &[u64])
    requires work { IsAtWork site (view_of hand.old) }
    requires row { row < site.sizes.rows }
    requires owns { OwnsRow (view_of hand.old) row }
    requires room { from + length words.now ≤ site.sizes.width }
    ensures table { table_of hand.new ≡ table_of hand.old }
    ensures wrote { Writes site (view_of hand.old) (view_of hand.new) row from words.now (length words.now) }
{
    let start = hand.row_start(row);
    for i in 0..words.len() {
        hand.write_row_at(start, row, from + i as u32, words[i]);
    }
}

/// Writes a whole row: the lengths of its key and its payload, the key, the
/// payload.
pub(crate) fn write_whole<C: Content>(
    hand: &mut Hand<C>,
    site: Site,
    row: u32,
    key: &[u64],
    payload: &[u64],
)
    requires work { IsAtWork site (view_of hand.old) }
    requires row { row < site.sizes.rows }
    requires owns { OwnsRow (view_of hand.old) row }
    requires room { 2 + (length key.now + length payload.now) ≤ site.sizes.width }
    ensures table { table_of hand.new ≡ table_of hand.old }
    ensures wrote { WritesRow site (view_of hand.old) (view_of hand.new) row (row_of key.now payload.now) }
{
    let lengths = [key.len() as u64, payload.len() as u64];
    write_words(hand, site, row, 0, &lengths);
    write_words(hand, site, row, 2, key);
    write_words(hand, site, row, key.len() as u32 + 2, payload);
}
