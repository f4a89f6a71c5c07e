//! What bytes are written to.

ghost use Rattle.std.specs.Prelude.{◌≡◌, ℕ, ◌<◌, ◌≤◌, List, length, take, IfOk, OnErr, IsErrOf, Option};
ghost use Rattle.bench_io.specs.Faults.{HasRisen};
ghost use Rattle.bench_io.specs.Known.{Takes};

use crate::Fault;

/// A thing that takes bytes.
pub trait Sink {
    /// The bytes that were taken, where the sink tells them.
    ghost taken: { Self → Option (List ℕ) };

    /// How often the sink has failed: a number that never falls, and stands still at the last `u64`.
    ghost faults: { Self → ℕ };

    /// Takes a prefix of `from`, of at least one byte, and returns how many bytes. A write that
    /// is refused takes none.
    fn write(&mut self, from: &[u8]) -> Result<usize, Fault>
        requires { 0 < length from.now }
        ensures some { IfOk result (λ n. 1 ≤ n) }
        ensures fits { IfOk result (λ n. n ≤ length from.now) }
        ensures takes { IfOk result (λ n. Takes (taken self.old) (taken self.new) (take n from.now)) }
        ensures refused { OnErr result (taken self.new ≡ taken self.old) }
        ensures counted { faults self.old ≤ faults self.new }
        ensures failed { IsErrOf result Fault.Failed → HasRisen (faults self.old) (faults self.new) };
}
