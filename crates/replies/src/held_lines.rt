//! The line that tells what the tables hold.

ghost use Rattle.std.specs.Prelude.{◌≡◌, ◌++◌, OnOk};
ghost use Rattle.replies.specs.Lines.{held_line};

use crate::edit_lines::put_number;
use std::alloc::AllocError;

/// Appends the line for so many keys of item sets and of scanner states.
#[tactic(auto, using(std::proofs::Common::append_assoc))]
pub(crate) fn put_held(out: &mut Vec<u8>, items: u32, scan: u32) -> Result<(), AllocError>
    ensures { OnOk result (out.new.items ≡ out.old.items ++ held_line items scan) }
{
    out.extend_from_slice(b"held items ")?;
    put_number(out, items)?;
    out.extend_from_slice(b" scan ")?;
    put_number(out, scan)?;
    out.extend_from_slice(b"\n")
}
