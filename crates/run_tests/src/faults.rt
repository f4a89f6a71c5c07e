//! Runs whose source or sink fails, or moves few bytes at a time.

ghost use Rattle.std.specs.Prelude.{◌≤◌};

use crate::runs::{Outcome, outcome_of, told};
use crate::scripts::{field, number_in, numbers_in, script_of};
use bench_io::{MemSink, MemSource};
use std::alloc::{AllocError, Global};
use workbench::{Status, run};

/// The outcome of a run over the script, where the source and the sink move so many bytes at most at a time, and
/// fail at the calls with these numbers.
fn faulty(
    alloc: Global,
    script: &[u8],
    most: usize,
    reads: &[u64],
    writes: &[u64],
) -> Result<Outcome, AllocError>
    requires { 1 ≤ most }
{
    let mut source = MemSource::new(script.to_vec(alloc)?, most, reads.to_vec(alloc)?);
    let mut sink = MemSink::new(alloc, most, writes.to_vec(alloc)?)?;
    let ended = run(alloc, &["workbench"], &mut source, &mut sink);
    Ok(Outcome {
        status: ended.status,
        written: sink.taken().to_vec(alloc)?,
    })
}

/// How the run of a row `SIZE;READS;WRITES;SCRIPT` ends, and what it writes.
pub(crate) fn told_faulty(alloc: Global, row: &str) -> Result<String, AllocError> {
    let (size, rest) = field(row);
    let (reads, rest) = field(rest);
    let (writes, script) = field(rest);
    let reads = numbers_in(alloc, reads)?;
    let writes = numbers_in(alloc, writes)?;
    let script = script_of(alloc, script)?;
    let size = number_in(size).max(1) as usize;
    told(alloc, &faulty(alloc, &script, size, &reads, &writes)?)
}

/// Whether both runs ended so, and wrote the same.
fn is_same(one: &Outcome, other: &Outcome) -> bool {
    if one.status != other.status {
        return false;
    }
    one.written == other.written
}

/// Whether the run ended in a fault of the source, and wrote nothing.
fn is_read_fault(outcome: &Outcome) -> bool {
    if outcome.status != Status::ReadFault {
        return false;
    }
    outcome.written.is_empty()
}

/// How many calls of the source there are, byte by byte, at whose failure the run ends in that fault.
fn count_read_faults(alloc: Global, script: &[u8]) -> Result<u64, AllocError> {
    for call in 0..u64::MAX {
        if !is_read_fault(&faulty(alloc, script, 1, &[call], &[])?) {
            return Ok(call);
        }
    }
    Ok(u64::MAX)
}

/// At how many calls of the source the run ends in its fault, and whether it is whole where a later one would fail.
pub(crate) fn told_each_read(alloc: Global, script: &[u8]) -> Result<String, AllocError> {
    let count = count_read_faults(alloc, script)?;
    let whole = outcome_of(alloc, script)?;
    let behind = faulty(alloc, script, 1, &[count], &[])?;
    format!(in alloc; "{count} faults, then whole: {}", is_same(&behind, &whole))
}

/// Whether the run ended in a fault of the sink, and wrote this.
fn is_write_fault(outcome: &Outcome, written: &[u8]) -> bool {
    if outcome.status != Status::WriteFault {
        return false;
    }
    outcome.written.as_slice() == written
}

/// How many calls of the sink there are, byte by byte, at whose failure the run ends in that fault with what was
/// written before.
fn count_write_faults(alloc: Global, script: &[u8], whole: &[u8]) -> Result<usize, AllocError> {
    for call in 0..whole.len() {
        let cut = faulty(alloc, script, 1, &[], &[call as u64])?;
        if !is_write_fault(&cut, &whole[..call]) {
            return Ok(call);
        }
    }
    Ok(whole.len())
}

/// At how many calls of the sink the run ends in its fault, and whether it is whole where a later one would fail.
pub(crate) fn told_each_write(alloc: Global, script: &[u8]) -> Result<String, AllocError> {
    let whole = outcome_of(alloc, script)?;
    let count = count_write_faults(alloc, script, &whole.written)?;
    let behind = faulty(alloc, script, 1, &[], &[count as u64])?;
    format!(in alloc; "{count} faults, then whole: {}", is_same(&behind, &whole))
}

/// The first size of 2 to 63 with which the run ends or writes other than this, or 64.
fn first_wrong_size(alloc: Global, script: &[u8], whole: &Outcome) -> Result<usize, AllocError> {
    for size in 2..64 {
        if !is_same(&faulty(alloc, script, size, &[], &[])?, whole) {
            return Ok(size);
        }
    }
    Ok(64)
}

/// Up to which size of pieces the run ends and writes the same.
pub(crate) fn told_each_size(alloc: Global, script: &[u8]) -> Result<String, AllocError> {
    let whole = outcome_of(alloc, script)?;
    let wrong = first_wrong_size(alloc, script, &whole)?;
    format!(in alloc; "the same below {wrong}")
}
