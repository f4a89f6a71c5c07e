//! How a key is looked for.

ghost use Rattle.std.specs.Prelude.{◌≡◌, ◌<◌, ◌≤◌, ◌+◌, Some, length};
ghost use Rattle.pin_rule.specs.Hands.{view_of, table_of};
ghost use Rattle.pin_rule.specs.Steps.{version_of};
ghost use Rattle.slot_store.specs.Walks.{IsAtWork, Walks, Copies, Glances};
ghost use Rattle.pin_rule.specs.Told.{KnowsWord, IsTold, Tells};

use crate::comparing::has_key;
use crate::paths::{first_place, next_place};
use crate::site::Site;
use pin_rule::content::Content;
use pin_rule::hand::Hand;

/// Where the walk along a key's path ended.
pub(crate) enum Seen {
    Same { row: u32 },
    Empty { place: u32 },
    Full,
}

/// What a look found, with the payload's words at the buffer's start.
#[derive(Clone, Copy)]
pub enum Glance {
    /// The payload has so many words.
    Found { count: usize },
    /// No row had the key: this place on its path was empty.
    Initial { place: u32 },
    /// All places held other keys.
    PageFull,
}

fn walk<C: Content>(hand: &mut Hand<C>, site: Site, key: &[u64]) -> Seen
    requires { IsAtWork site (view_of hand.old) }
    ensures table { table_of hand.new ≡ table_of hand.old }
    ensures walked { Walks site (view_of hand.old) (view_of hand.new) key.now result }
    ensures told { Tells C.lawful C.fits (view_of hand.new) }
{
    let start = hand.page_start(site.page);
    let mut place = first_place(site.sizes, key);
    for _step in 0..site.sizes.places {
        let met = hand.load_place_at(start, site.page, place);
        if met == 0 {
            return Seen::Empty { place };
        }
        let row = (met - 1) as u32;
        if has_key(hand, site, row, key) {
            return Seen::Same { row };
        }
        place = next_place(site.sizes, place);
    }
    Seen::Full
}

/// Reads the payload of a row with this key into the buffer, and answers how
/// many words it has.
fn read_payload<C: Content>(
    hand: &mut Hand<C>,
    site: Site,
    row: u32,
    key: &[u64],
    buffer: &mut [u64],
) -> usize
    requires work { IsAtWork site (view_of hand.old) }
    requires row { row < site.sizes.rows }
    requires known { version_of (view_of hand.old).entries row ≡ Some site.version }
    requires key { KnowsWord (view_of hand.old) site.version row 0 (length key.now) }
    requires room { site.sizes.width ≤ length buffer.old }
    ensures table { table_of hand.new ≡ table_of hand.old }
    ensures read { Copies site (view_of hand.old) (view_of hand.new) row (length key.now + 2) result result buffer.new }
    ensures room { result ≤ length buffer.new }
    ensures told { IsTold (C.fits (view_of hand.new).log) (view_of hand.new) site.version }
{
    let start = hand.row_start(row);
    let count = hand.load_row_at(start, row, 1) as usize;
    let from = key.len() as u32 + 2;
    for i in 0..count {
        buffer[i] = hand.load_row_at(start, row, from + i as u32);
    }
    count
}

/// Looks for the key. The payload is left in the buffer.
pub(crate) fn look<C: Content>(
    hand: &mut Hand<C>,
    site: Site,
    key: &[u64],
    buffer: &mut [u64],
) -> Glance
    requires work { IsAtWork site (view_of hand.old) }
    requires key { 0 < length key.now }
    requires room { site.sizes.width ≤ length buffer.old }
    ensures table { table_of hand.new ≡ table_of hand.old }
    ensures look { Glances site (C.fits (view_of hand.old).log) (view_of hand.old) (view_of hand.new) key.now buffer.new result }
    ensures told { IsTold (C.fits (view_of hand.new).log) (view_of hand.new) site.version }
{
    match walk(hand, site, key) {
        Seen::Same { row } => {
            let count = read_payload(hand, site, row, key, buffer);
            Glance::Found { count }
        }
        Seen::Empty { place } => Glance::Initial { place },
        Seen::Full => Glance::PageFull,
    }
}
