//! Expansions of scanner states from their words.

ghost use Rattle.std.specs.Prelude.{◌≡◌, ℕ, ◌<◌, ◌^◌, ◌/◌, List, IfOk, length, slice_index, map};
ghost use Rattle.isg_states.specs.declared.ranges.ScanExpansion.{ScanExpansion};
ghost use Rattle.isg_states.specs.Expansion.{Range};
ghost use Rattle.row_coding.specs.Words.{scan_payload_words};
ghost use Rattle.row_coding.specs.Conditions.{FitsScanCoding, IsTypedScan};
ghost use Rattle.row_coding.specs.Reading.{definition_of_number, mark_of, range_of, counted_words, AreMarkWords, BeginWithRange, BeginWithRanges};

use crate::NoMemory;
use crate::pieces::{counted_words, rest_of};
use edit_log::DefId;
use forest::{RuleId, SymbolId};
use isg_states::{Mark, Marks, Ranges, ScanExpansion, ScanKey};
use smallvec::SmallVec;
use std::alloc::Global;

/// Where the marks of a set are put together: up to sixteen take no memory.
type Buffer = SmallVec<Mark, 16>;

fn definition_of(number: u64) -> DefId
    requires { number / 2 < 2 ^ 32 }
    ensures { result ≡ definition_of_number number }
{
    if number % 2 == 0 {
        return DefId::Literal(SymbolId((number / 2) as u32));
    }
    DefId::Named(RuleId((number / 2) as u32))
}

fn mark_of(word: u64) -> Mark
    requires { word / 512 < 2 ^ 32 }
    ensures { result ≡ mark_of word }
{
    Mark {
        def: definition_of(word / 256),
        index: (word % 256) as u32,
    }
}

fn read_marks(alloc: Global, words: &[u64], marks: &mut Buffer) -> Result<Marks, NoMemory>
    requires { AreMarkWords words.now }
    ensures { IfOk result (λ found. found ≡ map mark_of words.now) }
{
    marks.clear();
    for word in words {
        marks.push(mark_of(*word))?;
    }
    Marks::of(alloc, marks.as_slice())
}

fn read_range(
    alloc: Global,
    words: &[u64],
    marks: &mut Buffer,
) -> Result<(u8, u8, ScanKey), NoMemory>
    requires { BeginWithRange words.now }
    ensures { IfOk result (λ range. range ≡ range_of (slice_index words.now 0) (counted_words words.now)) }
{
    let set = read_marks(alloc, counted_words(words), marks)?;
    let ends = words[0];
    Ok(((ends / 256) as u8, (ends % 256) as u8, ScanKey::Set(set)))
}

/// The ranges that these words begin with.
fn read_ranges(
    alloc: Global,
    count: usize,
    words: &[u64],
) -> Result<Vec<(u8, u8, ScanKey)>, NoMemory>
    requires { (ranges : List Range) × (rest : List ℕ) × BeginWithRanges words.now ranges rest × (length ranges ≡ count) }
    ensures { IfOk result (λ found. (ranges : List Range) (rest : List ℕ) → BeginWithRanges words.now ranges rest → length ranges ≡ count
        → found.items ≡ ranges) }
{
    let mut ranges = Vec::with_capacity(alloc, count)?;
    let mut marks = SmallVec::new(alloc);
    let mut rest = words;
    for _i in 0..count {
        ranges.push_reserved(read_range(alloc, rest, &mut marks)?);
        rest = rest_of(rest);
    }
    Ok(ranges)
}

/// The expansion of a state of the scanner that these words code.
pub fn read_scan(alloc: Global, payload: &[u64]) -> Result<ScanExpansion, NoMemory>
    requires { (coded : ScanExpansion) × FitsScanCoding coded × IsTypedScan coded × (payload.now ≡ scan_payload_words coded) }
    ensures { IfOk result (λ found. (coded : ScanExpansion) → FitsScanCoding coded → payload.now ≡ scan_payload_words coded → found ≡ coded) }
{
    let ranges = read_ranges(alloc, payload[0] as usize, &payload[1..])?;
    Ok(ScanExpansion {
        ranges: Ranges::from_vec(ranges),
    })
}
