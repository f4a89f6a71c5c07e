//! What a state of the scanner expands to, as data.

use crate::scan_key::ScanKey;
use lists::ListOf;

/// Ranges of bytes, each with the state to which its bytes lead.
pub type Ranges = ListOf<(u8, u8, ScanKey)>;

/// Where the bytes lead from a state.
#[derive(Drop)]
pub struct ScanExpansion {
    /// From the first byte to the second, to the state. They ascend, and no two have a byte in common. Bytes
    /// that lead nowhere are absent.
    pub ranges: Ranges,
}
