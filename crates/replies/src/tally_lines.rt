//! The lines that tell how lazy a command was.

ghost use Rattle.std.specs.Prelude.{◌≡◌, ◌++◌, OnOk};
ghost use Rattle.replies.specs.TallyLines.{dropped_line, tally_part, tally_line, both_tallies, parse_tallies, laziness_text};

use crate::edit_lines::put_number;
use crate::reply::{Outcome, Reply};
use live_graph::{Tallies, Tally};
use std::alloc::AllocError;

/// Appends the line for an edit that dropped so many rows of item sets and of scanner states.
#[tactic(auto, using(std::proofs::Common::append_assoc))]
fn put_dropped(out: &mut Vec<u8>, items: u32, scan: u32) -> Result<(), AllocError>
    ensures { OnOk result (out.new.items ≡ out.old.items ++ dropped_line items scan) }
{
    out.extend_from_slice(b"dropped items ")?;
    put_number(out, items)?;
    out.extend_from_slice(b" scan ")?;
    put_number(out, scan)?;
    out.extend_from_slice(b"\n")
}

/// Appends a word of a tally with its number.
#[tactic(auto, using(std::proofs::Common::append_assoc))]
fn put_part(out: &mut Vec<u8>, word: &[u8], number: u32) -> Result<(), AllocError>
    ensures { OnOk result (out.new.items ≡ out.old.items ++ tally_part word.now number) }
{
    out.extend_from_slice(b" ")?;
    out.extend_from_slice(word)?;
    out.extend_from_slice(b" ")?;
    put_number(out, number)?;
    Ok(())
}

/// Appends the line for a tally of this kind of keys.
#[tactic(auto, using(std::proofs::Common::append_assoc))]
fn put_tally(out: &mut Vec<u8>, kind: &[u8], tally: Tally) -> Result<(), AllocError>
    ensures { OnOk result (out.new.items ≡ out.old.items ++ tally_line kind.now tally) }
{
    out.extend_from_slice(kind)?;
    put_part(out, b"reached", tally.reached)?;
    put_part(out, b"made", tally.made)?;
    put_part(out, b"found", tally.found)?;
    put_part(out, b"raced", tally.raced)?;
    put_part(out, b"alone", tally.alone)?;
    out.extend_from_slice(b"\n")
}

/// Appends the lines for both kinds.
#[tactic(auto, using(std::proofs::Common::append_assoc))]
fn put_both(out: &mut Vec<u8>, tallies: &Tallies) -> Result<(), AllocError>
    ensures { OnOk result (out.new.items ≡ out.old.items ++ both_tallies tallies.now) }
{
    put_tally(out, b"items", tallies.items)?;
    put_tally(out, b"scan", tallies.scan)
}

/// Appends the lines for a parse, which has none where it was too large.
fn put_of_parse(out: &mut Vec<u8>, outcome: &Outcome, tallies: &Tallies) -> Result<(), AllocError>
    ensures { OnOk result (out.new.items ≡ out.old.items ++ parse_tallies outcome.now tallies.now) }
{
    match outcome {
        Outcome::Parsed(_) => put_both(out, tallies),
        Outcome::Scan(_) => put_both(out, tallies),
        Outcome::TooLarge => Ok(()),
    }
}

/// Appends the lines that tell how lazy the command was that is answered so: how its expansions came, and how many rows it
/// dropped.
pub fn put_laziness(
    reply: &Reply,
    tallies: &Tallies,
    dropped: (u32, u32),
    out: &mut Vec<u8>,
) -> Result<(), AllocError>
    ensures { OnOk result (out.new.items ≡ out.old.items ++ laziness_text reply.now tallies.now dropped) }
{
    match reply {
        Reply::Edited { .. } => put_dropped(out, dropped.0, dropped.1),
        Reply::Refused(_) => Ok(()),
        Reply::Parse { outcome, .. } => put_of_parse(out, outcome, tallies),
        Reply::Tokens { .. } => put_tally(out, b"scan", tallies.scan),
        Reply::Held { .. } => Ok(()),
    }
}
