//! A source and a sink in memory that never fail.

ghost use Rattle.std.specs.Prelude.{◌≡◌, ◌≢◌, ◌<◌, ◌++◌, [], length, min, take, drop, IfOk, OnOk, OnErr};

use crate::plan::copy_prefix;
use crate::{Fault, NoMemory, Sink, Source};
use std::alloc::Global;
use std::marker::Model;

/// The room of a new sink, in bytes.
pub(crate) const FIRST_ROOM: usize = 4096;

/// The bytes of a `Vec`, each of which is read once, in order. It never fails. Contracts see it as the
/// bytes that are left.
#[derive(Drop)]
pub struct PlainSource {
    /// All bytes, those that were read too.
    bytes: Vec<u8>,
    /// How many of them were read. Those from here on are left.
    start: usize,
}

impl Model for PlainSource {
    ghost use Rattle.std.specs.Prelude.{ℕ, ◌≤◌, List, drop, length};

    ghost Value = { List ℕ };

    ghost view = { λ s. drop s.start s.bytes.items };

    ghost invariant = { λ s. s.start ≤ length s.bytes.items };
}

impl PlainSource {
    /// A source of these bytes.
    pub fn new(bytes: Vec<u8>) -> PlainSource
        ensures { result ≡ bytes.items }
    {
        PlainSource { bytes, start: 0 }
    }
}

impl Source for PlainSource {
    ghost use Rattle.std.specs.Prelude.{Some};

    ghost left = { λ s. Some s };

    ghost faults = { λ _. 0 };

    /// Reads as many bytes as `into` has room for. It takes no memory and is never refused.
    fn read(&mut self, into: &mut [u8]) -> Result<usize, Fault>
        requires { 0 < length into.old }
        ensures amount { result ≡ Ok (min (length into.old) (length self.old)) }
        ensures copied { IfOk result (λ n. into.new ≡ take n self.old ++ drop n into.old) }
        ensures rest { IfOk result (λ n. self.new ≡ drop n self.old) }
    {
        let n = copy_prefix(&self.bytes[self.start..], into.len(), into);
        self.start += n;
        Ok(n)
    }
}

/// Keeps the bytes that are written to it. It never fails. Contracts see it as these bytes.
#[derive(Drop)]
pub struct PlainSink {
    /// The bytes that were taken, in order.
    bytes: Vec<u8>,
}

impl Model for PlainSink {
    ghost use Rattle.std.specs.Prelude.{ℕ, List};

    ghost Value = { List ℕ };

    ghost view = { λ s. s.bytes.items };
}

impl PlainSink {
    /// A sink that has taken nothing.
    pub fn new(alloc: Global) -> Result<PlainSink, NoMemory>
        ensures { IfOk result (λ sink. sink ≡ []) }
    {
        Ok(PlainSink {
            bytes: Vec::with_capacity(alloc, FIRST_ROOM)?,
        })
    }

    /// The bytes that were taken, in order.
    pub fn taken(&self) -> &[u8]
        ensures { result.now ≡ self.now }
    {
        &self.bytes
    }
}

impl Sink for PlainSink {
    ghost use Rattle.std.specs.Prelude.{Some};

    ghost taken = { λ s. Some s };

    ghost faults = { λ _. 0 };

    /// Takes all the bytes, and is refused only where memory ran out.
    fn write(&mut self, from: &[u8]) -> Result<usize, Fault>
        requires { 0 < length from.now }
        ensures amount { IfOk result (λ n. n ≡ length from.now) }
        ensures whole { OnOk result (self.new ≡ self.old ++ from.now) }
        ensures refused { OnErr result (self.new ≡ self.old) }
        ensures never_fails { result ≢ Err Fault.Failed }
    {
        self.bytes.extend_from_slice(from)?;
        Ok(from.len())
    }
}
