//! The line for a bad script.

ghost use Rattle.std.specs.Prelude.{◌≡◌, ◌++◌, OnOk};
ghost use Rattle.replies.specs.Lines.{kind_words, bad_line};

use crate::edit_lines::put_number;
use script_text::{BadKind, BadScript};
use std::alloc::AllocError;

/// What is wrong with a line.
fn words(kind: BadKind) -> &'static [u8]
    ensures { result.now ≡ kind_words kind }
{
    match kind {
        BadKind::UnknownCommand => b"unknown command",
        BadKind::BadEdit => b"bad edit",
        BadKind::BadRegex => b"bad expression",
        BadKind::BadText => b"bad text",
        BadKind::TextTooLong => b"text too long",
        BadKind::UnclosedPar => b"section not closed",
        BadKind::StrayEnd => b"end without section",
        BadKind::ParInPar => b"section in a section",
        BadKind::TooManyCommands => b"too many commands",
        BadKind::SectionTooLong => b"section too long",
        BadKind::StatsAfterPar => b"stats after a section",
    }
}

/// Appends the line for a script with this first bad line.
#[tactic(auto, using(std::proofs::Common::append_assoc))]
pub fn put_bad_script(out: &mut Vec<u8>, bad: BadScript) -> Result<(), AllocError>
    ensures { OnOk result (out.new.items ≡ out.old.items ++ bad_line bad) }
{
    out.extend_from_slice(b"bad script line ")?;
    put_number(out, bad.line)?;
    out.extend_from_slice(b": ")?;
    out.extend_from_slice(words(bad.kind))?;
    out.extend_from_slice(b"\n")
}
