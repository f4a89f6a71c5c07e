//! A source in memory that gives a few bytes at a time and fails when it is told to.

ghost use Rattle.std.specs.Prelude.{◌≡◌, ◌≢◌, ◌↔◌, ◌<◌, ◌≤◌, ◌++◌, [], length, min, take, drop, IfOk, OnErr};
ghost use Rattle.bench_io.specs.Supply.{Supply};
ghost use Rattle.bench_io.specs.Turns.{Fails, new_turns, after_call, after_failure};

use crate::plan::{Plan, copy_prefix};
use crate::{Fault, Source};
use std::marker::Model;

/// Gives the bytes of a `Vec` in order, a few at a call, and fails at calls with given numbers. Contracts
/// see it as the bytes that are left and what is known of its calls.
#[derive(Drop)]
pub struct MemSource {
    /// All bytes, those that were read too.
    bytes: Vec<u8>,
    /// How many of them were read. Those from here on are left.
    start: usize,
    /// Which reads fail, and how many bytes one gives at most.
    plan: Plan,
}

impl Model for MemSource {
    ghost use Rattle.std.specs.Prelude.{◌≤◌, drop, length};
    ghost use Rattle.bench_io.specs.Supply.{Supply};

    ghost Value = { Supply };

    ghost view = { λ s. record { left = drop s.start s.bytes.items; turns = s.plan } };

    ghost invariant = { λ s. (s.start ≤ length s.bytes.items) × (1 ≤ s.plan.most) };
}

impl MemSource {
    /// A source of these bytes that gives at most `most` of them at a call. The calls whose numbers,
    /// counted from 0, stand in `failing` fail, and no other call does.
    pub fn new(bytes: Vec<u8>, most: usize, failing: Vec<u64>) -> MemSource
        requires { 1 ≤ most }
        ensures bytes { result.left ≡ bytes.items }
        ensures turns { result.turns ≡ new_turns most failing.items }
    {
        MemSource {
            bytes,
            start: 0,
            plan: Plan::new(most, failing),
        }
    }
}

impl Source for MemSource {
    ghost use Rattle.std.specs.Prelude.{Some};

    ghost left = { λ s. Some s.left };

    ghost faults = { λ s. s.turns.faults };

    /// Reads as many bytes as there is room for and a call gives. It takes no memory.
    fn read(&mut self, into: &mut [u8]) -> Result<usize, Fault>
        requires { 0 < length into.old }
        ensures fails { (result ≡ Err Fault.Failed) ↔ Fails self.old.turns }
        ensures no_other { result ≢ Err Fault.NoMemory }

        // A call that does not fail.
        ensures amount { IfOk result (λ n.
            n ≡ min self.old.turns.most (min (length into.old) (length self.old.left))) }
        ensures copied { IfOk result (λ n. into.new ≡ take n self.old.left ++ drop n into.old) }
        ensures rest { IfOk result (λ n. self.new.left ≡ drop n self.old.left) }
        ensures counted { IfOk result (λ _. self.new.turns ≡ after_call self.old.turns) }

        ensures ends { IfOk result (λ n. n ≡ 0 → self.old.left ≡ []) }

        // A call that fails.
        ensures same_bytes { OnErr result (self.new.left ≡ self.old.left) }
        ensures same_length { length into.new ≡ length into.old }
        ensures never_falls { self.old.turns.faults ≤ self.new.turns.faults }
        ensures counted_failure { OnErr result (self.new.turns ≡ after_failure self.old.turns) }
    {
        if self.plan.begin() {
            return Err(Fault::Failed);
        }
        let n = copy_prefix(&self.bytes[self.start..], self.plan.most(), into);
        self.start += n;
        Ok(n)
    }
}
