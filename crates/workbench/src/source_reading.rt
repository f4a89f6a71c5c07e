//! Reads a source to its end.

ghost use Rattle.std.specs.Prelude.{◌≡◌, ◌≢◌, ℕ, ◌+◌, ◌^◌, ◌<◌, ◌≤◌, ◌++◌, [], length, vec_len, IfOk, IfSome, IsErrOf};
ghost use Rattle.bench_io.specs.Faults.{HasRisen};
ghost use Rattle.bench_io.specs.Known.{Gives, IsKnownAs};
ghost use Rattle.workbench.specs.Pieces.{GivesCount};

use bench_io::{Fault, Source};
use std::alloc::{AllocError, Global};

/// How many bytes are read at most at a time.
const READ_SIZE: usize = 16384;

/// Why a source was not read to its end.
#[derive(Clone, Copy, PartialEq, Eq)]
pub enum ReadError {
    /// The source failed.
    Failed,
    /// There was no memory.
    NoMemory,
    /// One byte more than is allowed was read.
    TooLong,
}

impl From<AllocError> for ReadError {
    ghost use Rattle.workbench.specs.declared.source_reading.ReadError.TheVariants.{NoMemory as no_memory};

    ghost from_gives = { λ _ error. error ≡ no_memory };

    fn from(_: AllocError) -> Self {
        ReadError::NoMemory
    }
}

/// Reads the source to its end, and gives its bytes, of which at most `limit` are allowed.
pub fn read_all<S: Source>(
    alloc: Global,
    source: &mut S,
    limit: usize,
) -> Result<Vec<u8>, ReadError>
    requires { limit < 2 ^ 63 }
    ensures whole { IfOk result (λ bytes. IsKnownAs (S.left source.old) bytes.items) }
    ensures ended { IfOk result (λ _. IfSome (S.left source.new) (λ rest. rest ≡ [])) }
    ensures within { IfOk result (λ bytes. vec_len bytes ≤ limit) }
    ensures too_long { IsErrOf result ReadError.TooLong
        → GivesCount (S.left source.old) (S.left source.new) (limit + 1) }
    ensures cut_short { IsErrOf result ReadError.Failed
        → (n : ℕ) × (n ≤ limit) × GivesCount (S.left source.old) (S.left source.new) n }
    ensures counted { S.faults source.old ≤ S.faults source.new }
    ensures failed { IsErrOf result ReadError.Failed
        → HasRisen (S.faults source.old) (S.faults source.new) }
{
    let mut piece = [0; READ_SIZE];
    let mut bytes = Vec::new(alloc);
    'pieces: while bytes.len() <= limit {
        let room = (limit - bytes.len() + 1).min(READ_SIZE);
        if read_piece(source, &mut piece[..room], &mut bytes)? == 0 {
            return Ok(bytes);
        }
    }
    Err(ReadError::TooLong)
}

/// One read, whose bytes are put behind `bytes`. Returns how many they were.
fn read_piece<S: Source>(
    source: &mut S,
    piece: &mut [u8],
    bytes: &mut Vec<u8>,
) -> Result<usize, ReadError>
    requires { 0 < length piece.old }
    ensures gives { IfOk result (λ n. (xs : _) × (length xs ≡ n)
        × (bytes.new.items ≡ bytes.old.items ++ xs)
        × Gives (S.left source.old) (S.left source.new) xs) }
    ensures fits { IfOk result (λ n. n ≤ length piece.old) }
    ensures ends { IfOk result (λ n. n ≡ 0 → IfSome (S.left source.old) (λ rest. rest ≡ [])) }
    ensures refused { IsErrOf result ReadError.Failed → S.left source.new ≡ S.left source.old }
    ensures not_long { result ≢ Err ReadError.TooLong }
    ensures counted { S.faults source.old ≤ S.faults source.new }
    ensures failed { IsErrOf result ReadError.Failed
        → HasRisen (S.faults source.old) (S.faults source.new) }
{
    let n = match source.read(piece) {
        Ok(n) => n,
        Err(Fault::Failed) => return Err(ReadError::Failed),
        Err(Fault::NoMemory) => return Err(ReadError::NoMemory),
    };
    bytes.extend_from_slice(&piece[..n])?;
    Ok(n)
}
