//! A sink in memory that takes a few bytes at a time and fails when it is told to.

ghost use Rattle.std.specs.Prelude.{◌≡◌, ◌↔◌, ◌<◌, ◌≤◌, ◌++◌, [], length, min, take, IfOk, OnErr, IsErrOf};
ghost use Rattle.bench_io.specs.Supply.{Intake};
ghost use Rattle.bench_io.specs.Turns.{Fails, new_turns, after_call, after_failure};

use crate::plain::FIRST_ROOM;
use crate::plan::Plan;
use crate::{Fault, NoMemory, Sink};
use std::alloc::Global;
use std::marker::Model;

/// Keeps the bytes that are written to it, a few at a call, and fails at calls with given numbers.
/// Contracts see it as the bytes that were taken and what is known of its calls.
#[derive(Drop)]
pub struct MemSink {
    /// The bytes that were taken, in order.
    bytes: Vec<u8>,
    /// Which writes fail, and how many bytes one takes at most.
    plan: Plan,
}

impl Model for MemSink {
    ghost use Rattle.std.specs.Prelude.{◌≤◌};
    ghost use Rattle.bench_io.specs.Supply.{Intake};

    ghost Value = { Intake };

    ghost view = { λ s. record { bytes = s.bytes.items; turns = s.plan } };

    ghost invariant = { λ s. 1 ≤ s.plan.most };
}

impl MemSink {
    /// A sink that has taken nothing and takes at most `most` bytes at a call. The calls whose numbers,
    /// counted from 0, stand in `failing` fail, and no other call does.
    pub fn new(alloc: Global, most: usize, failing: Vec<u64>) -> Result<MemSink, NoMemory>
        requires { 1 ≤ most }
        ensures bytes { IfOk result (λ sink. sink.bytes ≡ []) }
        ensures turns { IfOk result (λ sink. sink.turns ≡ new_turns most failing.items) }
    {
        Ok(MemSink {
            bytes: Vec::with_capacity(alloc, FIRST_ROOM)?,
            plan: Plan::new(most, failing),
        })
    }

    /// The bytes that were taken, in order.
    pub fn taken(&self) -> &[u8]
        ensures { result.now ≡ self.now.bytes }
    {
        &self.bytes
    }
}

impl Sink for MemSink {
    ghost use Rattle.std.specs.Prelude.{Some};

    ghost taken = { λ s. Some s.bytes };

    ghost faults = { λ s. s.turns.faults };

    /// Takes as many bytes as a call takes. A call that is not to fail is refused only where memory ran out.
    fn write(&mut self, from: &[u8]) -> Result<usize, Fault>
        requires { 0 < length from.now }
        ensures fails { IsErrOf result Fault.Failed ↔ Fails self.old.turns }

        // A call that does not fail.
        ensures amount { IfOk result (λ n. n ≡ min self.old.turns.most (length from.now)) }
        ensures some { IfOk result (λ n. 1 ≤ n) }
        ensures grown { IfOk result (λ n. self.new.bytes ≡ self.old.bytes ++ take n from.now) }
        ensures counted { IfOk result (λ _. self.new.turns ≡ after_call self.old.turns) }

        // A call that is refused.
        ensures same_bytes { OnErr result (self.new.bytes ≡ self.old.bytes) }
        ensures never_falls { self.old.turns.faults ≤ self.new.turns.faults }
        ensures counted_failure { IsErrOf result Fault.Failed
            → self.new.turns ≡ after_failure self.old.turns }
        ensures counted_refusal { IsErrOf result Fault.NoMemory
            → self.new.turns ≡ after_call self.old.turns }
    {
        if self.plan.begin() {
            return Err(Fault::Failed);
        }
        let n = self.plan.most().min(from.len());
        self.bytes.extend_from_slice(&from[..n])?;
        Ok(n)
    }
}
