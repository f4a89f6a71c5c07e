//! How the editor reads a row.

ghost use Rattle.std.specs.Prelude.{◌≡◌, ◌≤◌, ◌<◌, Some, take, length};
ghost use Rattle.pin_rule.specs.Hands.{view_of, table_of};
ghost use Rattle.pin_rule.specs.Steps.{version_of};
ghost use Rattle.pin_rule.specs.Told.{Tells};
ghost use Rattle.version_store.specs.Rows.{IsWholeRow};
ghost use Rattle.version_store.specs.Stages.{IsEditorOf, ReadsRow};

use crate::current::Current;
use pin_rule::content::Content;
use pin_rule::hand::Hand;

/// Reads the whole row, each word once and in order, to the buffer's start, and
/// answers how many words it has.
pub(crate) fn read_row<C: Content>(
    hand: &mut Hand<C>,
    current: Current,
    row: u32,
    buffer: &mut [u64],
) -> usize
    requires editor { IsEditorOf current (view_of hand.old) }
    requires row { row < current.sizes.rows }
    requires named { version_of (view_of hand.old).entries row ≡ Some current.version }
    requires room { length buffer.old ≡ current.sizes.width }
    ensures table { table_of hand.new ≡ table_of hand.old }
    ensures read { ReadsRow current (view_of hand.old) (view_of hand.new) row (take result buffer.new) }
    ensures is_whole { IsWholeRow (take result buffer.new) }
    ensures few { result ≤ length buffer.new }
    ensures room { length buffer.new ≡ current.sizes.width }
    ensures told { Tells C.lawful C.fits (view_of hand.new) }
{
    let start = hand.row_start(row);
    let key = hand.load_row_at(start, row, 0);
    let payload = hand.load_row_at(start, row, 1);
    buffer[0] = key;
    buffer[1] = payload;
    let count = 2 + key as usize + payload as usize;
    for index in 2..count {
        buffer[index] = hand.load_row_at(start, row, index as u32);
    }
    count
}
