//! The parts that lines are made of.

ghost use Rattle.std.specs.Prelude.{◌≡◌, ◌++◌, OnOk, OnErr};
ghost use Rattle.std.specs.List.{flat_map};
ghost use Rattle.forest_print.specs.Parts.{part_text};
ghost use Rattle.forest_print.specs.Prefixes.{AppendsPrefix};

use crate::NoMemory;
use itoa::Buffer;

/// A part of a line.
#[derive(Clone, Copy)]
pub(crate) enum Part<'a> {
    /// Bytes as they are.
    Bytes(&'a [u8]),
    /// A number in decimals.
    Number(u32),
}

/// Appends one part, or nothing.
fn put_part(out: &mut Vec<u8>, part: Part<'_>) -> Result<(), NoMemory>
    ensures whole { OnOk result (out.new.items ≡ out.old.items ++ part_text part.entry) }
    ensures kept { OnErr result (out.new.items ≡ out.old.items) }
{
    match part {
        Part::Bytes(bytes) => out.extend_from_slice(bytes),
        Part::Number(number) => out.extend_from_slice(Buffer::new().format(number).as_bytes()),
    }
}

/// Appends the parts, one after the other.
pub(crate) fn put_parts(out: &mut Vec<u8>, parts: &[Part<'_>]) -> Result<(), NoMemory>
    ensures whole { OnOk result (out.new.items ≡ out.old.items ++ flat_map part_text parts.now) }
    ensures prefix { OnErr result (AppendsPrefix out.old.items out.new.items (flat_map part_text parts.now)) }
{
    for part in parts {
        put_part(out, *part)?;
    }
    Ok(())
}
