//! What the sources and sinks in memory have in common: which calls fail, how much one moves, and a copy of
//! a prefix of some bytes.

ghost use Rattle.std.specs.Prelude.{◌≡◌, ◌↔◌, ◌≤◌, ◌++◌, length, min, take, drop, IsTrue, Contains};
ghost use Rattle.std.specs.Bool.{OnTrue, OnFalse};
ghost use Rattle.bench_io.specs.Turns.{Fails, new_turns, after_call, after_failure};

use std::marker::Model;

/// The calls of a source or a sink, some of which are to fail.
#[derive(Drop)]
pub(crate) struct Plan {
    /// The most bytes that a call moves.
    most: usize,
    /// The numbers of the calls that are to fail, counted from 0.
    failing: Vec<u64>,
    /// How many calls there were, which is the number of the next one. Wider than the numbers in `failing`, so that
    /// no call after the last of those has one of them.
    calls: u128,
    /// How many of them failed. At the last number the count stands still.
    faults: u64,
}

impl Model for Plan {
    ghost use Rattle.bench_io.specs.Turns.{Turns};

    ghost Value = { Turns };

    ghost view = { λ p. record {
      most = p.most;
      failing = p.failing.items;
      calls = p.calls;
      faults = p.faults;
    } };
}

impl Plan {
    pub(crate) fn new(most: usize, failing: Vec<u64>) -> Plan
        ensures { result ≡ new_turns most failing.items }
    {
        Plan {
            most,
            failing,
            calls: 0,
            faults: 0,
        }
    }

    pub(crate) fn most(&self) -> usize
        ensures { result ≡ self.now.most }
    {
        self.most
    }

    /// Counts a call, and says whether it is to fail.
    pub(crate) fn begin(&mut self) -> bool
        ensures fails { IsTrue result ↔ Fails self.old }
        ensures failed { OnTrue result (self.new ≡ after_failure self.old) }
        ensures never_falls { self.old.faults ≤ self.new.faults }
        ensures went_on { OnFalse result (self.new ≡ after_call self.old) }
    {
        let fails = is_listed(&self.failing, self.calls);
        self.calls = self.calls.saturating_add(1);
        if fails {
            self.faults = self.faults.saturating_add(1);
        }
        fails
    }
}

/// Whether the number of a call is one of these.
fn is_listed(numbers: &[u64], call: u128) -> bool
    ensures { IsTrue result ↔ Contains numbers.now call }
{
    for number in numbers {
        if *number as u128 == call {
            return true;
        }
    }
    false
}

/// Copies a prefix of `from` over one of `into`, at most `most` bytes, and returns how many.
pub(crate) fn copy_prefix(from: &[u8], most: usize, into: &mut [u8]) -> usize
    ensures amount { result ≡ min most (min (length into.old) (length from.now)) }
    ensures copied { into.new ≡ take result from.now ++ drop result into.old }
{
    let n = most.min(into.len()).min(from.len());
    into[..n].copy_from_slice(&from[..n]);
    n
}
