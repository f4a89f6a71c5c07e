//! How the rows of the page are read, and those that are kept are placed.

ghost use Rattle.std.specs.Prelude.{◌≡◌, ◌<◌, ◌↔◌, ℕ, List, Option, Some, replicate, length};
ghost use Rattle.pin_rule.specs.declared.content.Entry.{Entry};
ghost use Rattle.pin_rule.specs.Hands.{view_of, table_of};
ghost use Rattle.pin_rule.specs.Steps.{version_of};
ghost use Rattle.pin_rule.specs.Told.{Tells};
ghost use Rattle.version_store.specs.Asking.{AsksEach};
ghost use Rattle.version_store.specs.Rows.{Found, rows_found};
ghost use Rattle.version_store.specs.Stages.{IsEditorOf, next_log_of, FindsRows};
ghost use Rattle.version_store.specs.Choices.{count_taken, ChoosesRow, HasChosen};

use crate::current::Current;
use crate::row_placing::put_at_first;
use crate::row_reading::read_row;
use pin_rule::choosers::Chooser;
use pin_rule::content::Content;
use pin_rule::hand::Hand;

/// Reads a row, and places it where it is kept.
fn choose_row<C: Content, H: Chooser<C>>(
    hand: &mut Hand<C>,
    current: Current,
    row: u32,
    chooser: &mut H,
    buffer: &mut [u64],
    places: &mut [u64],
)
    requires editor { IsEditorOf current (view_of hand.old) }
    requires row { row < current.sizes.rows }
    requires named { version_of (view_of hand.old).entries row ≡ Some current.version }
    requires lawful { C.lawful (next_log_of (view_of hand.old)) }
    requires leads { H.leads chooser.old (view_of hand.old).log (next_log_of (view_of hand.old)) }
    requires buffer { length buffer.old ≡ current.sizes.width }
    requires places { length places.old ≡ current.sizes.places }
    requires few { count_taken places.old < current.sizes.places }
    ensures table { table_of hand.new ≡ table_of hand.old }
    ensures chosen { ChoosesRow (H.keeps chooser.old) (C.fits (next_log_of (view_of hand.old))) (λ words. H.moves chooser.old words chooser.new) current
        (view_of hand.old) (view_of hand.new) row places.old places.new }
    ensures told { Tells C.lawful C.fits (view_of hand.new) }
    ensures buffer { length buffer.new ≡ current.sizes.width }
    ensures same_leads { (first next : List Entry) → H.leads chooser.new first next ↔ H.leads chooser.old first next }
    ensures same_keeps { (words : List ℕ) → H.keeps chooser.new words ↔ H.keeps chooser.old words }
{
    let count = read_row(hand, current, row, buffer);
    if chooser.keep(&buffer[..count]) {
        let end = 2 + buffer[0] as usize;
        put_at_first(current.sizes, places, &buffer[2..end], row as u64 + 1);
    }
}

/// Reads the page, place by place and each row once, asks about each row, and
/// places those that are kept. The places are empty at first.
pub(crate) fn choose_rows<C: Content, H: Chooser<C>>(
    hand: &mut Hand<C>,
    current: Current,
    chooser: &mut H,
    buffer: &mut [u64],
    places: &mut [u64],
)
    requires editor { IsEditorOf current (view_of hand.old) }
    requires lawful { C.lawful (next_log_of (view_of hand.old)) }
    requires leads { H.leads chooser.old (view_of hand.old).log (next_log_of (view_of hand.old)) }
    requires buffer { length buffer.old ≡ current.sizes.width }
    requires places { places.old ≡ replicate current.sizes.places 0 }
    ensures table { table_of hand.new ≡ table_of hand.old }
    ensures chosen { (found : List (Option Found)) × (length found ≡ current.sizes.places)
        × FindsRows current (view_of hand.old) (view_of hand.new) found
        × HasChosen (H.keeps chooser.old) (C.fits (next_log_of (view_of hand.old))) current.sizes found places.new
        × AsksEach H.moves chooser.old (rows_found found) chooser.new }
    ensures buffer { length buffer.new ≡ current.sizes.width }
    ensures same_leads { (first next : List Entry) → H.leads chooser.new first next ↔ H.leads chooser.old first next }
    ensures same_keeps { (words : List ℕ) → H.keeps chooser.new words ↔ H.keeps chooser.old words }
{
    let start = hand.page_start(current.page);
    for place in 0..current.sizes.places {
        let met = hand.load_place_at(start, current.page, place);
        if met == 0 {
            continue;
        }
        choose_row(hand, current, (met - 1) as u32, chooser, buffer, places);
    }
}
