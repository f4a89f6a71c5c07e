//! Sinks, write by write.

use crate::scripts::{field, number_in, numbers_in};
use bench_io::{Fault, MemSink, PlainSink, Sink, StdSink};
use std::alloc::{AllocError, Global};
use std::io::{self, Write};

/// A writer that takes nothing.
#[derive(Drop)]
struct Broken;

impl Write for Broken {
    fn write(&mut self, _: &[u8]) -> io::Result<usize> {
        Ok(0)
    }

    fn flush(&mut self) -> io::Result<()> {
        Ok(())
    }
}

/// How many bytes were taken, or the fault.
fn told_write(alloc: Global, written: Result<usize, Fault>) -> Result<String, AllocError> {
    match written {
        Ok(count) => format!(in alloc; "{count},"),
        Err(Fault::Failed) => String::from_str(alloc, "fault,"),
        Err(Fault::NoMemory) => Err(AllocError),
    }
}

/// One write, where there is something to be written.
fn write_once<K: Sink>(alloc: Global, sink: &mut K, bytes: &[u8]) -> Result<String, AllocError> {
    if bytes.is_empty() {
        return String::from_str(alloc, "nothing,");
    }
    told_write(alloc, sink.write(bytes))
}

/// A write of each word.
fn write_all<K: Sink>(alloc: Global, sink: &mut K, words: &str) -> Result<String, AllocError> {
    let mut told = String::new(alloc);
    for word in words.split_whitespace() {
        told.push_str(&write_once(alloc, sink, word.as_bytes())?)?;
    }
    Ok(told)
}

/// What the writes gave, and the bytes that were taken.
fn told_taken(alloc: Global, told: &str, taken: &[u8]) -> Result<String, AllocError> {
    match std::str::from_utf8(taken) {
        Ok(taken) => format!(in alloc; "{told} taken {taken}"),
        Err(_) => String::from_str(alloc, "no text"),
    }
}

/// The writes of the words to a sink that takes all.
pub(crate) fn told_plain_sink(alloc: Global, words: &str) -> Result<String, AllocError> {
    let mut sink = PlainSink::new(alloc)?;
    let told = write_all(alloc, &mut sink, words)?;
    told_taken(alloc, &told, sink.taken())
}

/// The writes of a row `MOST;FAILING;WORD ..` to a sink that takes so many bytes at most at a time, and fails at
/// the calls with these numbers.
pub(crate) fn told_sink(alloc: Global, row: &str) -> Result<String, AllocError> {
    let (most, rest) = field(row);
    let (failing, words) = field(rest);
    let most = number_in(most).max(1) as usize;
    let mut sink = MemSink::new(alloc, most, numbers_in(alloc, failing)?)?;
    let told = write_all(alloc, &mut sink, words)?;
    told_taken(alloc, &told, sink.taken())
}

/// The writes of the words to a writer of std.
pub(crate) fn told_writer(alloc: Global, words: &str) -> Result<String, AllocError> {
    let mut out = Vec::new(alloc);
    let mut sink = StdSink::new(&mut out);
    let told = write_all(alloc, &mut sink, words)?;
    told_taken(alloc, &told, &out)
}

/// The writes of the words to a writer that takes nothing.
pub(crate) fn told_broken_writer(alloc: Global, words: &str) -> Result<String, AllocError> {
    let mut sink = StdSink::new(Broken);
    write_all(alloc, &mut sink, words)
}
