//! What a gathered bench tells of the rows of its page.

ghost use Rattle.version_store.specs.Means.{bench_of};
ghost use Rattle.version_store_soak.specs.Working.{HasSamePins};

use crate::payload::fits;
use pin_rule::content::AnyRow;
use std::alloc::{AllocError, Global};
use version_store::bench::Bench;

/// What the rows of a page are.
#[derive(Clone, Copy)]
pub(crate) struct Rows {
    /// How many there are.
    pub(crate) count: u32,
    /// How many of them do not fit.
    pub(crate) misfits: u32,
    /// How many of them have a key that another one has.
    pub(crate) twice: u32,
}

/// The key of the row at a place, if there is one, and whether the row fits.
fn row_at(bench: &mut Bench<AnyRow>, place: u32) -> Option<(u64, bool)>
    ensures { HasSamePins (bench_of bench.old) (bench_of bench.new) }
{
    let version = bench.version();
    if place >= bench.places() {
        return None;
    }
    let words = bench.row(place)?;
    if words.len() < 4 || words[0] != 1 {
        return Some((0, false));
    }
    let key = words[2];
    Some((key, fits(key, &words[3..], version)))
}

/// Marks the key, and answers whether it was marked before. One above those that can be marked was.
fn mark(marks: &mut [bool], key: u64) -> bool {
    if key >= marks.len() as u64 {
        return true;
    }
    let before = marks[key as usize];
    marks[key as usize] = true;
    before
}

/// The rows of the page, place by place. Their keys are below this one.
pub(crate) fn read_rows(
    alloc: Global,
    bench: &mut Bench<AnyRow>,
    keys: u64,
) -> Result<Rows, AllocError>
    ensures { HasSamePins (bench_of bench.old) (bench_of bench.new) }
{
    let mut marks = Vec::from_elem(alloc, false, keys.min(1_000_000) as usize)?;
    let mut rows = Rows {
        count: 0,
        misfits: 0,
        twice: 0,
    };
    for place in 0..bench.places() {
        if let Some((key, fitting)) = row_at(bench, place) {
            let before = mark(marks.as_mut_slice(), key);
            rows = Rows {
                count: rows.count.saturating_add(1),
                misfits: rows.misfits.saturating_add(!fitting as u32),
                twice: rows.twice.saturating_add(before as u32),
            };
        }
    }
    Ok(rows)
}
