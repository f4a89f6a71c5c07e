//! Why a read or a write was refused.

ghost use Rattle.std.specs.Prelude.{◌≡◌};
ghost use Rattle.bench_io.specs.declared.fault.Fault.TheVariants.{NoMemory as no_memory};

use std::alloc::AllocError;

/// The refusal of a call that wanted memory.
pub type NoMemory = AllocError;

/// Why a read or a write was refused.
#[derive(Clone, Copy, Debug, PartialEq, Eq)]
pub enum Fault {
    /// The thing beneath failed. Its count of faults rose.
    Failed,
    /// There was no memory for the bytes.
    NoMemory,
}

impl From<AllocError> for Fault {
    ghost from_gives = { λ _ fault. fault ≡ no_memory };

    fn from(_: AllocError) -> Self {
        Fault::NoMemory
    }
}
