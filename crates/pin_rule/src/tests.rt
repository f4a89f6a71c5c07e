//! Sizes of the table, hands over two threads, and choosers.

ghost use Rattle.std.specs.Prelude.{◌≡◌, None, List};
ghost use Rattle.pin_rule.specs.declared.content.Entry.{Entry};
ghost use Rattle.pin_rule.specs.Hands.{view_of, table_of};

use crate::choosers::{Chooser, KeepAll, KeepNone};
use crate::content::AnyRow;
use crate::hand::Hand;
use crate::sizes::Sizes;
use std::test::Fail;
use std::thread;

fn small() -> Sizes {
    Sizes {
        log: 1,
        versions: 2,
        places: 4,
        rows: 4,
        width: 8,
        pins: 0,
    }
}

#[test]
fn the_full_table_has_its_words(rt: HostRuntime) {
    assert_eq!(rt; Sizes::full().words(), 2_691_089);
}

#[test]
fn a_small_table_has_its_words(rt: HostRuntime) {
    assert_eq!(rt; small().words(), 1 + 2 + 4 + 2 * 4 + 32 + 4 * 8);
}

#[test]
fn two_threads_hold_a_hand_each(rt: HostRuntime) -> Result<(), Fail> {
    let mut mine = Hand::<AnyRow>::open(rt.alloc(), small())?;
    let theirs = mine.split(0);
    let (mut mine, theirs) = thread::join(
        &rt,
        move || -> Hand<AnyRow>
            ensures { (table_of result ≡ table_of mine) × (view_of result ≡ view_of mine) }
        { mine },
        move || -> Hand<AnyRow>
            ensures { (table_of result ≡ table_of theirs) × (view_of result ≡ view_of theirs) }
        { theirs },
    );
    mine.join(theirs);
    mine.close();
    Ok(())
}

fn is_kept<H: Chooser<AnyRow>>(chooser: &mut H, row: &[u64]) -> bool
    requires { (first next : List Entry) → H.leads chooser.old first next }
{
    chooser.keep(row)
}

#[test]
fn one_chooser_keeps_a_row_that_the_other_drops(rt: HostRuntime) {
    let row = [1, 1, 7, 70];
    let kept = (is_kept(&mut KeepAll, &row), is_kept(&mut KeepNone, &row));
    assert_eq!(rt; kept, (true, false));
}
