//! std's readers and writers as a source and a sink.
//!
//! They tell no content as a source and a sink, since a file or a terminal has none that a contract could
//! name. What a reader or a writer tells of its own is handed on as it is.

ghost use Rattle.std.specs.Prelude.{◌≡◌, ◌≢◌, ◌<◌, ◌≤◌, length, IfOk, OnOk, OnErr};
ghost use Rattle.std.specs.Io.KnownBytes.{ReadConsumes, WriteAppends};
ghost use Rattle.bench_io.specs.Faults.{count_after};

use crate::{Fault, Sink, Source};
use std::io::{Read, Write};
use std::marker::Model;

/// A reader of std as a source. Contracts see it as the reader and the count of its faults.
#[derive(Drop)]
pub struct StdSource<R> {
    /// What the bytes are read from.
    reader: R,
    /// How many reads failed. At the last number the count stands still.
    faults: u64,
}

impl<R> Model for StdSource<R> {
    ghost use Rattle.bench_io.specs.Adapted.{Adapted};

    ghost Value = { Adapted R };

    ghost view = { λ s. record { inner = s.reader; faults = s.faults } };
}

impl<R: Read> StdSource<R> {
    /// A source that reads from `reader` and has not failed yet.
    pub fn new(reader: R) -> StdSource<R>
        ensures inner { result.inner ≡ reader }
        ensures faults { result.faults ≡ 0 }
    {
        StdSource { reader, faults: 0 }
    }
}

impl<R: Read> Source for StdSource<R> {
    ghost use Rattle.std.specs.Prelude.{None};

    ghost left = { λ _. None };

    ghost faults = { λ s. s.faults };

    /// One read of the reader. Each error of it is a fault, an interruption by a signal too.
    fn read(&mut self, into: &mut [u8]) -> Result<usize, Fault>
        requires { 0 < length into.old }
        ensures fits { IfOk result (λ n. n ≤ length into.new) }
        ensures same_length { length into.new ≡ length into.old }
        ensures hands_on { ReadConsumes (R.remaining self.old.inner) (R.remaining self.new.inner)
            result into.new }
        ensures same_count { OnOk result (self.new.faults ≡ self.old.faults) }
        ensures counted { OnErr result (self.new.faults ≡ count_after self.old.faults) }
        ensures never_falls { self.old.faults ≤ self.new.faults }
        ensures no_other { result ≢ Err Fault.NoMemory }
    {
        match self.reader.read(into) {
            Ok(n) => Ok(n),
            Err(_) => {
                self.faults = self.faults.saturating_add(1);
                Err(Fault::Failed)
            }
        }
    }
}

/// A writer of std as a sink. Contracts see it as the writer and the count of its faults. It does not
/// flush: where the writer keeps a buffer, what the sink took may not be where it belongs yet.
#[derive(Drop)]
pub struct StdSink<W> {
    /// What the bytes are written to.
    writer: W,
    /// How many writes failed or took nothing. At the last number the count stands still.
    faults: u64,
}

impl<W> Model for StdSink<W> {
    ghost use Rattle.bench_io.specs.Adapted.{Adapted};

    ghost Value = { Adapted W };

    ghost view = { λ s. record { inner = s.writer; faults = s.faults } };
}

impl<W: Write> StdSink<W> {
    /// A sink that writes to `writer` and has not failed yet.
    pub fn new(writer: W) -> StdSink<W>
        ensures inner { result.inner ≡ writer }
        ensures faults { result.faults ≡ 0 }
    {
        StdSink { writer, faults: 0 }
    }
}

impl<W: Write> Sink for StdSink<W> {
    ghost use Rattle.std.specs.Prelude.{None};

    ghost taken = { λ _. None };

    ghost faults = { λ s. s.faults };

    /// One write of the writer. Each error of it is a fault, and so is a write that took nothing.
    fn write(&mut self, from: &[u8]) -> Result<usize, Fault>
        requires { 0 < length from.now }
        ensures some { IfOk result (λ n. 1 ≤ n) }
        ensures fits { IfOk result (λ n. n ≤ length from.now) }
        ensures hands_on { WriteAppends (W.contents self.old.inner) (W.contents self.new.inner)
            result from.now }
        ensures same_count { OnOk result (self.new.faults ≡ self.old.faults) }
        ensures counted { OnErr result (self.new.faults ≡ count_after self.old.faults) }
        ensures never_falls { self.old.faults ≤ self.new.faults }
        ensures no_other { result ≢ Err Fault.NoMemory }
    {
        match self.writer.write(from) {
            Ok(n) if n > 0 => Ok(n),
            _ => {
                self.faults = self.faults.saturating_add(1);
                Err(Fault::Failed)
            }
        }
    }
}
