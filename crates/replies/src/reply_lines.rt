//! The lines of a reply.

ghost use Rattle.std.specs.Prelude.{◌≡◌, ◌++◌, OnOk};
ghost use Rattle.replies.specs.Lines.{reply_text};
ghost use Rattle.replies.specs.Known.{IsKnownReply};

use crate::edit_lines::{put_refusal, put_version};
use crate::held_lines::put_held;
use crate::reply::Reply;
use crate::text_lines::{put_outcome, put_result};
use edit_log::Grammar;
use std::alloc::AllocError;

/// Appends the lines of a reply. Its symbols are those of the grammar.
pub fn put_reply(grammar: &Grammar, reply: &Reply, out: &mut Vec<u8>) -> Result<(), AllocError>
    requires { IsKnownReply grammar.now.grammar.symbols reply.now }
    ensures { OnOk result (out.new.items ≡ out.old.items ++ reply_text grammar.now.grammar.symbols reply.now) }
{
    match reply {
        Reply::Edited { version } => put_version(out, *version),
        Reply::Refused(refusal) => put_refusal(out, refusal),
        Reply::Parse { version, outcome } => put_outcome(out, grammar, *version, outcome),
        Reply::Tokens { version, result } => put_result(out, grammar, *version, result),
        Reply::Held { items, scan } => put_held(out, *items, *scan),
    }
}
