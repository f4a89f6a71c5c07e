//! How the rows of the page are read.

ghost use Rattle.std.specs.Prelude.{◌≡◌, ◌<◌, ◌≤◌, ℕ, List, Option, Some, None, take, length, IfSome, IfNone};
ghost use Rattle.pin_rule.specs.Hands.{view_of, table_of};
ghost use Rattle.version_store.specs.Rows.{Found};
ghost use Rattle.pin_rule.specs.Told.{Tells};
ghost use Rattle.version_store.specs.Stages.{IsEditorOf, FindsRows};
ghost use Rattle.version_store.specs.PlaceReading.{ReadsPlace};

use crate::current::Current;
use crate::row_reading::read_row;
use pin_rule::content::Content;
use pin_rule::hand::Hand;

/// Reads the place, and the row that stands there to the buffer's start.
/// Answers how many words the row has, and nothing where the place is empty.
pub(crate) fn read_place<C: Content>(
    hand: &mut Hand<C>,
    current: Current,
    place: u32,
    buffer: &mut [u64],
) -> Option<usize>
    requires editor { IsEditorOf current (view_of hand.old) }
    requires place { place < current.sizes.places }
    requires buffer { length buffer.old ≡ current.sizes.width }
    ensures table { table_of hand.new ≡ table_of hand.old }
    ensures none { IfNone result (ReadsPlace current (view_of hand.old) (view_of hand.new) place None) }
    ensures some { IfSome result (λ count. (count ≤ length buffer.new)
        × ((row : ℕ) × ReadsPlace current (view_of hand.old) (view_of hand.new) place (Some record { row = row; words = take count buffer.new }))) }
    ensures fits { IfSome result (λ count. C.fits (view_of hand.new).log (take count buffer.new)) }
    ensures told { Tells C.lawful C.fits (view_of hand.new) }
    ensures buffer { length buffer.new ≡ current.sizes.width }
{
    let met = hand.load_place(current.page, place);
    if met == 0 {
        return None;
    }
    let row = (met - 1) as u32;
    let count = read_row(hand, current, row, buffer);
    Some(count)
}

/// Reads the page, place by place and each row once.
pub(crate) fn read_page<C: Content>(hand: &mut Hand<C>, current: Current, buffer: &mut [u64])
    requires editor { IsEditorOf current (view_of hand.old) }
    requires buffer { length buffer.old ≡ current.sizes.width }
    ensures table { table_of hand.new ≡ table_of hand.old }
    ensures found { (found : List (Option Found)) × (length found ≡ current.sizes.places)
        × FindsRows current (view_of hand.old) (view_of hand.new) found }
    ensures buffer { length buffer.new ≡ current.sizes.width }
{
    let start = hand.page_start(current.page);
    for place in 0..current.sizes.places {
        let met = hand.load_place_at(start, current.page, place);
        if met == 0 {
            continue;
        }
        read_row(hand, current, (met - 1) as u32, buffer);
    }
}
