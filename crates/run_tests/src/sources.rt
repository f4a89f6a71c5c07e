//! Sources, read by read.

ghost use Rattle.std.specs.Prelude.{◌≤◌};

use crate::scripts::{field, number_in, numbers_in};
use bench_io::{Fault, MemSource, PlainSource, Source, StdSource};
use std::alloc::{AllocError, Global};
use std::io::{self, Error, ErrorKind, Read};

/// A reader that fails.
#[derive(Drop)]
struct Broken;

impl Read for Broken {
    fn read(&mut self, _: &mut [u8]) -> io::Result<usize> {
        Err(Error::from(ErrorKind::Other))
    }
}

/// How many bytes were read, or the fault, and what then stands where they were read to.
fn told_read(alloc: Global, read: Result<usize, Fault>, into: &[u8]) -> Result<String, AllocError> {
    let Ok(text) = std::str::from_utf8(into) else {
        return String::from_str(alloc, "no text");
    };
    match read {
        Ok(count) => format!(in alloc; "{count} {text}"),
        Err(Fault::Failed) => format!(in alloc; "fault {text}"),
        Err(Fault::NoMemory) => Err(AllocError),
    }
}

/// One read into so many bytes, all of which are dots before.
fn read_once<S: Source>(alloc: Global, source: &mut S, size: usize) -> Result<String, AllocError>
    requires { 1 ≤ size }
{
    let mut into = vec![in alloc; b'.'; size]?;
    let read = source.read(&mut into);
    told_read(alloc, read, &into)
}

/// So many reads, each into so many bytes: `COUNT SIZE`.
fn read_all<S: Source>(alloc: Global, source: &mut S, reads: &str) -> Result<String, AllocError> {
    let (count, size) = match reads.split_once(' ') {
        Some((count, size)) => (count, size),
        None => (reads, ""),
    };
    let size = number_in(size).max(1) as usize;
    let mut told = String::new(alloc);
    for _ in 0..number_in(count) {
        told.push_str(&read_once(alloc, source, size)?)?;
        told.push_str(",")?;
    }
    Ok(told)
}

/// The reads of a row `COUNT SIZE;BYTES` from a source that gives all it has.
pub(crate) fn told_plain_source(alloc: Global, row: &str) -> Result<String, AllocError> {
    let (reads, bytes) = field(row);
    let mut source = PlainSource::new(bytes.as_bytes().to_vec(alloc)?);
    read_all(alloc, &mut source, reads)
}

/// The reads of a row `COUNT SIZE;MOST;FAILING;BYTES` from a source that gives so many bytes at most at a time,
/// and fails at the calls with these numbers.
pub(crate) fn told_source(alloc: Global, row: &str) -> Result<String, AllocError> {
    let (reads, rest) = field(row);
    let (most, rest) = field(rest);
    let (failing, bytes) = field(rest);
    let most = number_in(most).max(1) as usize;
    let failing = numbers_in(alloc, failing)?;
    let mut source = MemSource::new(bytes.as_bytes().to_vec(alloc)?, most, failing);
    read_all(alloc, &mut source, reads)
}

/// The reads of a row `COUNT SIZE;BYTES` from a reader of std.
pub(crate) fn told_reader(alloc: Global, row: &str) -> Result<String, AllocError> {
    let (reads, bytes) = field(row);
    let mut source = StdSource::new(bytes.as_bytes());
    read_all(alloc, &mut source, reads)
}

/// The reads of a row `COUNT SIZE` from a reader that fails.
pub(crate) fn told_broken_reader(alloc: Global, row: &str) -> Result<String, AllocError> {
    let mut source = StdSource::new(Broken);
    read_all(alloc, &mut source, row)
}
