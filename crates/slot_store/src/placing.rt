//! How an own row comes into the page.

ghost use Rattle.std.specs.Prelude.{◌≡◌, ◌≤◌, ◌<◌, ◌+◌, ℕ, length};
ghost use Rattle.pin_rule.specs.Hands.{view_of, table_of};
ghost use Rattle.pin_rule.specs.Told.{Tells};
ghost use Rattle.slot_store.specs.Keys.{row_of};
ghost use Rattle.slot_store.specs.Walks.{IsAtWork, OwnsRow, IsPlaceable, Offers, Places};

use crate::comparing::has_key;
use crate::paths::{first_place, next_place};
use crate::site::Site;
use crate::writing::write_whole;
use pin_rule::content::Content;
use pin_rule::hand::Hand;

/// How the walk of a row to its place ended.
pub(crate) enum Placed {
    Here,
    Already,
    Full,
}

/// Writes the row and publishes it, where the place is empty. Answers 0 where
/// that was done, and else the number of the row that stands there plus one. A
/// row is not written before an empty place is met, since most walks meet the
/// key; and a place that is taken is loaded alone, which is cheaper than an
/// exchange.
fn offer<C: Content>(
    hand: &mut Hand<C>,
    site: Site,
    place: u32,
    row: u32,
    key: &[u64],
    payload: &[u64],
) -> u64
    requires work { IsAtWork site (view_of hand.old) }
    requires row { row < site.sizes.rows }
    requires place { (step : ℕ) × IsPlaceable (C.fits (view_of hand.old).log) site (view_of hand.old) row key.now payload.now step place }
    ensures table { table_of hand.new ≡ table_of hand.old }
    ensures offer { Offers site (view_of hand.old) (view_of hand.new) place row key.now (row_of key.now payload.now) result }
    ensures told { Tells C.lawful C.fits (view_of hand.new) }
{
    let met = hand.load_place(site.page, place);
    if met != 0 {
        return met;
    }
    write_whole(hand, site, row, key, payload);
    hand.publish(site.page, place, row)
}

/// Walks along the key's path, past the rows with other keys, and writes and
/// publishes the row at the first place that is empty.
pub(crate) fn place_row<C: Content>(
    hand: &mut Hand<C>,
    site: Site,
    row: u32,
    key: &[u64],
    payload: &[u64],
) -> Placed
    requires work { IsAtWork site (view_of hand.old) }
    requires row { row < site.sizes.rows }
    requires owns { OwnsRow (view_of hand.old) row }
    requires room { 2 + (length key.now + length payload.now) ≤ site.sizes.width }
    requires fits { C.fits (view_of hand.old).log (row_of key.now payload.now) }
    ensures table { table_of hand.new ≡ table_of hand.old }
    ensures placed { Places site (view_of hand.old) (view_of hand.new) row key.now (row_of key.now payload.now) result }
    ensures told { Tells C.lawful C.fits (view_of hand.new) }
{
    let mut place = first_place(site.sizes, key);
    for _step in 0..site.sizes.places {
        let met = offer(hand, site, place, row, key, payload);
        if met == 0 {
            return Placed::Here;
        }
        if has_key(hand, site, (met - 1) as u32, key) {
            return Placed::Already;
        }
        place = next_place(site.sizes, place);
    }
    Placed::Full
}
