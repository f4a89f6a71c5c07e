//! Runs without failures.

ghost use Rattle.std.specs.Prelude.{◌<◌, length};

use crate::scripts::{field, number_in, script_of, told_lines};
use bench_io::{PlainSink, PlainSource};
use std::alloc::{AllocError, Global};
use workbench::{Status, run};

/// How a run ended, and what it wrote.
#[derive(Drop)]
pub(crate) struct Outcome {
    /// What the run answers when it ends.
    pub(crate) status: Status,
    /// All bytes that its sink took.
    pub(crate) written: Vec<u8>,
}

/// The outcome of a run with these words over the script.
fn outcome_with(alloc: Global, words: &[&str], script: &[u8]) -> Result<Outcome, AllocError>
    requires { 0 < length words.now }
{
    let mut source = PlainSource::new(script.to_vec(alloc)?);
    let mut sink = PlainSink::new(alloc)?;
    let ended = run(alloc, words, &mut source, &mut sink);
    Ok(Outcome {
        status: ended.status,
        written: sink.taken().to_vec(alloc)?,
    })
}

/// The outcome of a run over the script.
pub(crate) fn outcome_of(alloc: Global, script: &[u8]) -> Result<Outcome, AllocError> {
    outcome_with(alloc, &["workbench"], script)
}

/// The status by its name, and what was written.
pub(crate) fn told(alloc: Global, outcome: &Outcome) -> Result<String, AllocError> {
    let lines = told_lines(alloc, &outcome.written)?;
    format!(in alloc; "{:?} {lines}", outcome.status)
}

/// How the run over the script ends, and what it writes.
pub(crate) fn told_run(alloc: Global, script: &[u8]) -> Result<String, AllocError> {
    told(alloc, &outcome_of(alloc, script)?)
}

/// How the run of a row `WORD ..;SCRIPT` ends, with the words behind the program's name, and what it writes.
pub(crate) fn told_words(alloc: Global, row: &str) -> Result<String, AllocError> {
    let (words, script) = field(row);
    let mut all = Vec::new(alloc);
    for word in words.split_whitespace() {
        all.push(word)?;
    }
    all.insert(0, "workbench")?;
    let script = script_of(alloc, script)?;
    told(alloc, &outcome_with(alloc, &all, &script)?)
}

/// The last three of so many lines, each of which ends in a bar.
fn last_three(alloc: Global, lines: &str, count: usize) -> Result<String, AllocError> {
    let mut last = String::new(alloc);
    for line in lines.split('|').skip(count.saturating_sub(3)).take(3) {
        last.push_str(line)?;
        last.push_str("|")?;
    }
    Ok(last)
}

/// How the run over the script ends, how many lines it writes, and the last three of them.
pub(crate) fn told_end(alloc: Global, script: &[u8]) -> Result<String, AllocError> {
    let outcome = outcome_of(alloc, script)?;
    let lines = told_lines(alloc, &outcome.written)?;
    let count = lines.matches('|').count();
    let last = last_three(alloc, &lines, count)?;
    format!(in alloc; "{:?} {count} lines, the last {last}", outcome.status)
}

/// The output for a rule of a letter, and then so many of it to scan, worked out line by line.
fn lines_of_letters(alloc: Global, count: u64) -> Result<String, AllocError> {
    let mut lines = format!(in alloc; "version 1\ntokens 1 count {count}\n")?;
    for (at, end) in (0..count).zip(1..=count) {
        lines.push_str(&format!(in alloc; "token \"a\" {at} {end}\n")?)?;
    }
    Ok(lines)
}

/// The script for a rule of a letter, and then so many of it to scan.
fn script_of_letters(alloc: Global, count: u64) -> Result<String, AllocError> {
    let mut script = String::from_str(alloc, "rule START ::= \"a\"\ntokens ")?;
    for _ in 0..count {
        script.push_str("a")?;
    }
    Ok(script)
}

/// Whether so many letters are told as so many tokens.
pub(crate) fn told_letters(alloc: Global, count: &str) -> Result<String, AllocError> {
    let count = number_in(count);
    let script = script_of_letters(alloc, count)?;
    let outcome = outcome_of(alloc, script.as_bytes())?;
    if outcome.written.as_slice() == lines_of_letters(alloc, count)?.as_bytes() {
        return String::from_str(alloc, "as worked out");
    }
    told(alloc, &outcome)
}
