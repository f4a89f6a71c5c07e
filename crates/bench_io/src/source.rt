//! What bytes are read from.

ghost use Rattle.std.specs.Prelude.{◌≡◌, ◌↔◌, ℕ, ◌<◌, ◌≤◌, List, [], length, take, IfOk, OnErr, IfSome, IsErrOf, Option};
ghost use Rattle.bench_io.specs.Faults.{HasRisen};
ghost use Rattle.bench_io.specs.Known.{Gives};

use crate::Fault;

/// A thing that gives bytes until none is left.
pub trait Source {
    /// The bytes that are left, where the source tells them.
    ghost left: { Self → Option (List ℕ) };

    /// How often the source has failed: a number that never falls, and stands still at the last `u64`.
    ghost faults: { Self → ℕ };

    /// Reads some of the bytes that are left into a prefix of `into`, and returns how many: 0 where
    /// none is left. A read that is refused takes none. What stands in `into` behind the bytes that were
    /// read, or after a refusal, is not told.
    fn read(&mut self, into: &mut [u8]) -> Result<usize, Fault>
        requires { 0 < length into.old }
        ensures fits { IfOk result (λ n. n ≤ length into.new) }
        ensures same_length { length into.new ≡ length into.old }
        ensures gives { IfOk result (λ n. Gives (left self.old) (left self.new) (take n into.new)) }
        ensures ends { IfOk result (λ n. IfSome (left self.old) (λ bytes. (n ≡ 0) ↔ (bytes ≡ []))) }
        ensures refused { OnErr result (left self.new ≡ left self.old) }
        ensures counted { faults self.old ≤ faults self.new }
        ensures failed { IsErrOf result Fault.Failed → HasRisen (faults self.old) (faults self.new) };
}
