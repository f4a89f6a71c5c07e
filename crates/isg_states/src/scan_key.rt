//! The keys of the scanner's states.

ghost use Rattle.std.specs.Prelude.{◌≡◌};

use crate::NoMemory;
use crate::marks::Marks;

/// A state of the scanner.
#[derive(Drop)]
pub enum ScanKey {
    /// Where no byte of a piece was read yet.
    Start,
    /// The positions whose classes have just matched the last byte.
    Set(Marks),
}

impl Clone for ScanKey {
    ghost is_clone = { λ key copy. copy ≡ key };

    fn clone(&self) -> Result<ScanKey, NoMemory> {
        match self {
            ScanKey::Start => Ok(ScanKey::Start),
            ScanKey::Set(marks) => Ok(ScanKey::Set(marks.clone()?)),
        }
    }
}
