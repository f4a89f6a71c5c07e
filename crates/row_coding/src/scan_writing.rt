//! Keys and expansions of scanner states as words.
//!
//! A payload is counted before it is written, so that its buffer is made once and never grows.

ghost use Rattle.std.specs.Prelude.{◌≡◌, ◌+◌, ◌*◌, ◌≤◌, [], ◌∷◌, ◌++◌, IfOk, IfSome, length, map, flat_map, vec_len, vec_capacity};
ghost use Rattle.isg_states.specs.Marks.{mark_number};
ghost use Rattle.row_coding.specs.Words.{marks_in, scan_key_words, range_words, scan_payload_words};

use crate::NoMemory;
use isg_states::{Mark, ScanExpansion, ScanKey};
use std::alloc::{AllocError, Global};

fn push_marks(words: &mut Vec<u64>, marks: &[Mark])
    requires { vec_len words.old + length marks.now ≤ vec_capacity words.old }
    ensures items { words.new.items ≡ words.old.items ++ map mark_number marks.now }
    ensures capacity { vec_capacity words.new ≡ vec_capacity words.old }
{
    for mark in marks {
        words.push_reserved(mark.number());
    }
}

fn start_key(alloc: Global) -> Result<Vec<u64>, NoMemory>
    ensures words { IfOk result (λ words. words.items ≡ 2 ∷ []) }
    ensures exact { IfOk result (λ words. vec_capacity words ≡ vec_len words) }
{
    let mut words = Vec::with_capacity(alloc, 1)?;
    words.push_reserved(2);
    Ok(words)
}

fn set_key(alloc: Global, marks: &[Mark]) -> Result<Vec<u64>, NoMemory>
    ensures words { IfOk result (λ words. words.items ≡ 3 ∷ map mark_number marks.now) }
    ensures exact { IfOk result (λ words. vec_capacity words ≡ vec_len words) }
{
    let Some(len) = marks.len().checked_add(1) else {
        return Err(AllocError);
    };
    let mut words = Vec::with_capacity(alloc, len)?;
    words.push_reserved(3);
    push_marks(&mut words, marks);
    Ok(words)
}

/// The key of a state of the scanner: 2 for the start, and 3 and its marks for a set.
pub fn scan_key(alloc: Global, key: &ScanKey) -> Result<Vec<u64>, NoMemory>
    ensures words { IfOk result (λ words. words.items ≡ scan_key_words key.now) }
    ensures exact { IfOk result (λ words. vec_capacity words ≡ vec_len words) }
{
    match key {
        ScanKey::Start => start_key(alloc),
        ScanKey::Set(marks) => set_key(alloc, marks.items()),
    }
}

/// The marks of a key: the start has none.
fn marks_in(key: &ScanKey) -> &[Mark]
    ensures { result.now ≡ marks_in key.now }
{
    match key {
        ScanKey::Start => &[],
        ScanKey::Set(marks) => marks.items(),
    }
}

/// How many words the ranges have, where that is a number of the machine.
fn ranges_len(ranges: &[(u8, u8, ScanKey)]) -> Option<usize>
    ensures { IfSome result (λ len. len ≡ length (flat_map range_words ranges.now)) }
{
    let mut len: usize = 0;
    for range in ranges {
        len = len.checked_add(2)?.checked_add(marks_in(&range.2).len())?;
    }
    Some(len)
}

/// Both ends of a range in one word.
fn ends_word(low: u8, high: u8) -> u64
    ensures { result ≡ low * 256 + high }
{
    u64::from(low) * 256 + u64::from(high)
}

fn push_range(words: &mut Vec<u64>, range: &(u8, u8, ScanKey))
    requires { vec_len words.old + length (range_words range.now) ≤ vec_capacity words.old }
    ensures items { words.new.items ≡ words.old.items ++ range_words range.now }
    ensures capacity { vec_capacity words.new ≡ vec_capacity words.old }
{
    let marks = marks_in(&range.2);
    words.push_reserved(ends_word(range.0, range.1));
    words.push_reserved(marks.len() as u64);
    push_marks(words, marks);
}

fn push_ranges(words: &mut Vec<u64>, ranges: &[(u8, u8, ScanKey)])
    requires { vec_len words.old + length (flat_map range_words ranges.now) ≤ vec_capacity words.old }
    ensures items { words.new.items ≡ words.old.items ++ flat_map range_words ranges.now }
    ensures capacity { vec_capacity words.new ≡ vec_capacity words.old }
{
    for range in ranges {
        push_range(words, range);
    }
}

fn scan_payload_len(ranges: &[(u8, u8, ScanKey)]) -> Option<usize>
    ensures { IfSome result (λ len. len ≡ 1 + length (flat_map range_words ranges.now)) }
{
    ranges_len(ranges)?.checked_add(1)
}

/// The payload of a state of the scanner: the number of its ranges, and the ranges.
pub fn scan_payload(alloc: Global, expansion: &ScanExpansion) -> Result<Vec<u64>, NoMemory>
    ensures words { IfOk result (λ payload. payload.items ≡ scan_payload_words expansion.now) }
    ensures exact { IfOk result (λ payload. vec_capacity payload ≡ vec_len payload) }
{
    let ranges = expansion.ranges.as_slice();
    let Some(len) = scan_payload_len(ranges) else {
        return Err(AllocError);
    };
    let mut payload = Vec::with_capacity(alloc, len)?;
    payload.push_reserved(ranges.len() as u64);
    push_ranges(&mut payload, ranges);
    Ok(payload)
}
