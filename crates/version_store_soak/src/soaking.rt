//! One soak: versions are made beside passes, and then the table is gathered, counted, filled and gathered again.

ghost use Rattle.std.specs.Prelude.{◌≤◌, IfOk};
ghost use Rattle.version_store.specs.Means.{bench_of};
ghost use Rattle.version_store_soak.specs.Working.{HasPinsOfTable};

use crate::asking::{Asked, Work};
use crate::editing::Edited;
use crate::filling::fill;
use crate::reading::{Rows, read_rows};
use crate::together::{Round, work_and_gather};
use crate::visiting::Seen;
use pin_rule::content::AnyRow;
use std::alloc::{AllocError, Global};
use std::thread::Threads;
use version_store::bench::Bench;

/// What was counted of a gathered table.
#[derive(Clone, Copy)]
struct Counted {
    /// What the editor was answered.
    edited: Edited,
    /// What the passes saw.
    seen: Seen,
    /// The version of the bench.
    version: u32,
    /// How many pins it has left.
    pins_left: u32,
    /// The rows of its page.
    rows: Rows,
    /// How often a bench that was to be parted was given back.
    refused: u32,
}

/// Parts, works, gathers, and reads the page. The keys of its rows are below this one.
fn soak_once<R: Threads + Sync>(
    rt: &R,
    alloc: Global,
    bench: Bench<AnyRow>,
    passes: u32,
    work: Work,
    keys: u64,
) -> Result<(Bench<AnyRow>, Counted), AllocError>
    requires passes { (1 ≤ passes) × (passes ≤ 16) }
    requires pins { HasPinsOfTable (bench_of bench) }
    ensures { IfOk result (λ r. HasPinsOfTable (bench_of r.0)) }
{
    let Round {
        mut bench,
        edited,
        seen,
        refused,
    } = work_and_gather(rt, bench, passes, work)?;
    let rows = read_rows(alloc, &mut bench, keys)?;
    let counted = Counted {
        edited,
        seen,
        version: bench.version(),
        pins_left: bench.pins_left(),
        rows,
        refused,
    };
    Ok((bench, counted))
}

/// How far the pins left are from those that were there less those that were taken.
fn lost_pins(before: u32, counted: Counted) -> u64 {
    let left = (before as u64).saturating_sub(counted.seen.pins);
    left.abs_diff(counted.pins_left as u64)
}

/// How many versions were made, and what was wrong.
fn told_counted(alloc: Global, before: u32, counted: Counted) -> Result<String, AllocError> {
    let made = counted.edited.made;
    let version = counted.version;
    let numbers = counted.edited.misnamed;
    let answers = counted.seen.misfits;
    let falls = counted.seen.falls;
    let pins = lost_pins(before, counted);
    let rows = counted.rows.misfits;
    let keys = counted.rows.twice;
    format!(in alloc;
        "made {made} versions, gathered at version {version}, wrong: {numbers} numbers, {answers} answers, {falls} falls, {pins} pins, {rows} rows, {keys} keys"
    )
}

/// What a soak counts. After the first gathering each row that no place of the page names is published anew, so a row
/// that was lost would be missing then.
pub(crate) fn told_soak<R: Threads + Sync>(
    rt: &R,
    alloc: Global,
    asked: Asked,
) -> Result<String, AllocError> {
    let sizes = asked.sizes;
    let keys = asked.work.keys;
    let bench = Bench::make(alloc, sizes)?;
    let (bench, first) = soak_once(rt, alloc, bench, asked.passes, asked.work, keys)?;
    let most = sizes.rows.min(sizes.places);
    let (bench, made) = fill(bench, keys, most);
    let lost = most.abs_diff(first.rows.count.saturating_add(made));
    let left = bench.pins_left();
    let all_keys = keys.saturating_add(most as u64);
    let work = asked.work.for_full_page();
    let (_bench, second) = soak_once(rt, alloc, bench, asked.passes, work, all_keys)?;
    let missing = most.abs_diff(second.rows.count);
    let refused = first.refused.saturating_add(second.refused);
    let told = told_counted(alloc, sizes.pins, first)?;
    let again = told_counted(alloc, left, second)?;
    format!(in alloc;
        "{told}; filled, {lost} rows lost; {again}; {missing} rows lost; {refused} parts refused"
    )
}
