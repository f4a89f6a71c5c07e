//! Bytes that lead to the same marks, joined to ranges.

ghost use Rattle.std.specs.Prelude.{◌≡◌, ◌↔◌, ◌+◌, ◌*◌, ◌<◌, IsTrue, IfOk, OnOk};
ghost use Rattle.std.specs.List.Sorted.{IsStrictlySortedBy};
ghost use Rattle.isg_states.specs.Marks.{mark_cmp, AreAscending};
ghost use Rattle.isg_states.specs.Candidates.{marks_of, marks_with, Adjoins, IsWithRange, TellsBelow};

use crate::NoMemory;
use crate::candidates::{Candidate, with_byte};
use crate::ends::{end_from, ends_of};
use crate::mark::Mark;
use crate::marks::Marks;
use crate::scan_key::ScanKey;
use std::alloc::Global;

/// Whether the last range ends directly before the byte and leads to these marks.
fn goes_on(ranges: &[(u8, u8, ScanKey)], byte: u8, marks: &[Mark]) -> bool
    ensures { IsTrue result ↔ Adjoins ranges.now byte marks.now }
{
    let Some(last) = ranges.last() else {
        return false;
    };
    if byte == 0 || last.1 != byte - 1 {
        return false;
    }
    match &last.2 {
        ScanKey::Start => false,
        ScanKey::Set(key) => key.items() == marks,
    }
}

/// Tells that the bytes from `low` to `high` lead to these marks: the last range goes on, or a new one begins.
fn add_range(
    alloc: Global,
    ranges: &mut Vec<(u8, u8, ScanKey)>,
    low: u8,
    high: u8,
    marks: &[Mark],
) -> Result<(), NoMemory>
    requires { AreAscending marks.now }
    ensures { OnOk result (IsWithRange ranges.old.items low high marks.now ranges.new.items) }
{
    if goes_on(ranges, low, marks) {
        let last = ranges.len() - 1;
        ranges[last].1 = high;
        return Ok(());
    }
    let key = ScanKey::Set(Marks::of(alloc, marks)?);
    ranges.push((low, high, key))?;
    Ok(())
}

/// Tells where the 64 bytes from 64 times `number` on lead, all those at once between which no class changes.
fn add_word(
    alloc: Global,
    candidates: &[Candidate],
    number: usize,
    marks: &mut Vec<Mark>,
    ranges: &mut Vec<(u8, u8, ScanKey)>,
) -> Result<(), NoMemory>
    requires order { IsStrictlySortedBy mark_cmp (marks_of candidates.now) }
    requires number { number < 4 }
    ensures { OnOk result (TellsBelow (marks_with candidates.now) (64 * number) ranges.old.items
        → TellsBelow (marks_with candidates.now) (64 * number + 64) ranges.new.items) }
{
    let ends = ends_of(candidates, number);
    let start = (64 * number) as u8;
    let mut low = 0;
    while low < 64 {
        let high = end_from(ends, low);
        let first = start + low as u8;
        with_byte(candidates, first, marks)?;
        let led = marks.as_slice();
        if !led.is_empty() {
            add_range(alloc, ranges, first, start + high as u8, led)?;
        }
        low = high + 1;
    }
    Ok(())
}

/// The ranges of bytes with the marks to which they lead.
pub(crate) fn byte_ranges(
    alloc: Global,
    candidates: &[Candidate],
) -> Result<Vec<(u8, u8, ScanKey)>, NoMemory>
    requires { IsStrictlySortedBy mark_cmp (marks_of candidates.now) }
    ensures { IfOk result (λ ranges. TellsBelow (marks_with candidates.now) 256 ranges.items) }
{
    let mut ranges = Vec::new(alloc);
    let mut marks = Vec::with_capacity(alloc, candidates.len())?;
    for number in 0..4usize {
        add_word(alloc, candidates, number, &mut marks, &mut ranges)?;
    }
    Ok(ranges)
}
