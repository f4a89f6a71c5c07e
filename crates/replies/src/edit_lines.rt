//! The lines that answer an edit.

ghost use Rattle.std.specs.Prelude.{◌≡◌, ◌++◌, OnOk};
ghost use Rattle.replies.specs.Lines.{version_line, clash_line, exists_line, absent_line, full_line, refusal_line};

use edit_log::Refusal;
use itoa::{Buffer, Integer};
use std::alloc::AllocError;

/// Appends the number in decimals.
pub(crate) fn put_number<I: Integer>(out: &mut Vec<u8>, number: I) -> Result<(), AllocError>
    ensures { OnOk result (out.new.items ≡ out.old.items ++ I.text number) }
{
    out.extend_from_slice(Buffer::new().format(number).as_bytes())
}

/// Appends the line for a version.
#[tactic(auto, using(std::proofs::Common::append_assoc))]
pub(crate) fn put_version(out: &mut Vec<u8>, version: u32) -> Result<(), AllocError>
    ensures { OnOk result (out.new.items ≡ out.old.items ++ version_line version) }
{
    out.extend_from_slice(b"version ")?;
    put_number(out, version)?;
    out.extend_from_slice(b"\n")
}

/// Appends the line for a name that would stand for two kinds of things.
#[tactic(auto, using(std::proofs::Common::append_assoc))]
fn put_clash(out: &mut Vec<u8>, name: &[u8]) -> Result<(), AllocError>
    ensures { OnOk result (out.new.items ≡ out.old.items ++ clash_line name.now) }
{
    out.extend_from_slice(b"refused clash ")?;
    out.extend_from_slice(name)?;
    out.extend_from_slice(b"\n")?;
    Ok(())
}

/// Appends the line for what is there already, under this number.
#[tactic(auto, using(std::proofs::Common::append_assoc))]
fn put_exists(out: &mut Vec<u8>, number: u32) -> Result<(), AllocError>
    ensures { OnOk result (out.new.items ≡ out.old.items ++ exists_line number) }
{
    out.extend_from_slice(b"refused exists ")?;
    put_number(out, number)?;
    out.extend_from_slice(b"\n")?;
    Ok(())
}

/// Appends the line for what is not there.
fn put_absent(out: &mut Vec<u8>) -> Result<(), AllocError>
    ensures { OnOk result (out.new.items ≡ out.old.items ++ absent_line) }
{
    out.extend_from_slice(b"refused absent\n")
}

/// Appends the line for a grammar that takes no more edits.
#[tactic(auto, using(std::proofs::Common::append_assoc))]
fn put_full(out: &mut Vec<u8>, version: u32) -> Result<(), AllocError>
    ensures { OnOk result (out.new.items ≡ out.old.items ++ full_line version) }
{
    out.extend_from_slice(b"refused full ")?;
    put_number(out, version)?;
    out.extend_from_slice(b"\n")?;
    Ok(())
}

/// Appends the line for a refused edit.
pub(crate) fn put_refusal(out: &mut Vec<u8>, refusal: &Refusal) -> Result<(), AllocError>
    ensures { OnOk result (out.new.items ≡ out.old.items ++ refusal_line refusal.now) }
{
    match refusal {
        Refusal::NameClash { name } => put_clash(out, name.bytes()),
        Refusal::Exists { number } => put_exists(out, *number),
        Refusal::NoSuch => put_absent(out),
        Refusal::LogFull { version } => put_full(out, *version),
        Refusal::NoMemory => Ok(()),
    }
}
