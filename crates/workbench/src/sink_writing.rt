//! Writes a slice whole.

ghost use Rattle.std.specs.Prelude.{◌≤◌, OnOk, OnErr, IsErrOf};
ghost use Rattle.bench_io.specs.Faults.{HasRisen};
ghost use Rattle.bench_io.specs.Known.{Takes};
ghost use Rattle.workbench.specs.Pieces.{TakesProperPrefix};

use bench_io::{Fault, Sink};

/// Writes all these bytes, in as many writes as the sink wants.
pub fn write_all<K: Sink>(sink: &mut K, bytes: &[u8]) -> Result<(), Fault>
    ensures whole { OnOk result (Takes (K.taken sink.old) (K.taken sink.new) bytes.now) }
    ensures refused { OnErr result (TakesProperPrefix (K.taken sink.old) (K.taken sink.new) bytes.now) }
    ensures counted { K.faults sink.old ≤ K.faults sink.new }
    ensures failed { IsErrOf result Fault.Failed
        → HasRisen (K.faults sink.old) (K.faults sink.new) }
{
    let mut written = 0;
    'writes: while written < bytes.len() {
        written += sink.write(&bytes[written..])?;
    }
    Ok(())
}
