//! Numbers, counts and states of the scanner as words.

ghost use Rattle.std.specs.Prelude.{◌≡◌, IfOk};

use graph_content::GraphRows;
use isg_states::{Mark, ScanKey};
use live_graph::{Tallies, Tally};
use std::alloc::{AllocError, Global};
use version_store::bench::Bench;

/// The mark's number. Behind this function, which has no contract, it is a plain value.
fn number_of(mark: Mark) -> u64 {
    mark.number()
}

/// Adds the word and the number.
pub(crate) fn tell(
    alloc: Global,
    told: &mut String,
    word: &str,
    number: u64,
) -> Result<(), AllocError> {
    told.push_str(&format!(in alloc; "{word}{number}")?)
}

/// The numbers of the marks, with a blank between two.
fn told_numbers(alloc: Global, marks: &[Mark]) -> Result<String, AllocError> {
    let mut told = String::new(alloc);
    for mark in marks {
        if !told.is_empty() {
            told.push_str(" ")?;
        }
        tell(alloc, &mut told, "", number_of(*mark))?;
    }
    Ok(told)
}

fn tell_set(alloc: Global, told: &mut String, marks: &[Mark]) -> Result<(), AllocError> {
    let numbers = told_numbers(alloc, marks)?;
    told.push_str(" {")?;
    told.push_str(numbers.as_str())?;
    told.push_str("}")
}

/// Adds the state: the start, or the numbers of its marks.
pub(crate) fn tell_key(alloc: Global, told: &mut String, key: &ScanKey) -> Result<(), AllocError> {
    match key {
        ScanKey::Start => told.push_str(" start"),
        ScanKey::Set(marks) => tell_set(alloc, told, marks.items()),
    }
}

/// One of two answers that are the same, and both where they differ.
pub(crate) fn agreed(told: String, again: &str) -> Result<String, AllocError> {
    let mut told = told;
    if told.as_str() != again {
        told.push_str(" DIFFERS")?;
        told.push_str(again)?;
    }
    Ok(told)
}

/// Adds how expansions of one kind came.
fn tell_tally(
    alloc: Global,
    told: &mut String,
    kind: &str,
    tally: Tally,
) -> Result<(), AllocError> {
    told.push_str(kind)?;
    tell(alloc, told, " reached ", u64::from(tally.reached))?;
    tell(alloc, told, " made ", u64::from(tally.made))?;
    tell(alloc, told, " found ", u64::from(tally.found))?;
    tell(alloc, told, " raced ", u64::from(tally.raced))?;
    tell(alloc, told, " alone ", u64::from(tally.alone))
}

/// Adds how the expansions came.
pub(crate) fn tell_tallies(
    alloc: Global,
    told: &mut String,
    tallies: Tallies,
) -> Result<(), AllocError> {
    tell_tally(alloc, told, " items", tallies.items)?;
    tell_tally(alloc, told, ", scan", tallies.scan)
}

/// Where the bench stands. Behind this function, which has no contract, these are plain values.
fn place_of(bench: &Bench<GraphRows>) -> (u32, u32) {
    (bench.version(), bench.pins_left())
}

/// The version of the bench, and the pins that are left.
pub(crate) fn told_bench(alloc: Global, bench: &Bench<GraphRows>) -> Result<String, AllocError> {
    let (version, left) = place_of(bench);
    format!(in alloc; "version {version}, {left} pins left")
}

/// The bench of a command that found no pin, with what is told of it.
pub(crate) fn told_spent(
    alloc: Global,
    bench: Bench<GraphRows>,
) -> Result<(Bench<GraphRows>, String), AllocError>
    ensures { IfOk result (λ done. done.0 ≡ bench) }
{
    let mut told = String::from_str(alloc, "spent, the bench at ")?;
    told.push_str(&told_bench(alloc, &bench)?)?;
    Ok((bench, told))
}
