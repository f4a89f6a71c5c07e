//! Reading a command from its line.

ghost use Rattle.std.specs.Prelude.{◌≡◌, ◌≤◌, length, option_map, IfOk, IfErr, OnOk};
ghost use Rattle.grammar_text.specs.Limits.{IsSound};
ghost use Rattle.grammar_text.specs.Pieces.{IsLine};
ghost use Rattle.script_text.specs.Forms.{EditLine};
ghost use Rattle.script_text.specs.Expressions.{added_expression, AddsExpression};
ghost use Rattle.script_text.specs.Commands.{SpellsText, IsWrongText, SpellsAs, IsWrongAs};
ghost use Rattle.script_text.specs.Seen.{sort_seen, IsReason, LacksExpression};

use crate::bad_script::{BadKind, Refusal};
use crate::command::Command;
use crate::form::Ask;
use crate::limits::TEXT_LIMIT;
use crate::texts::read_text;
use grammar_text::{BadEdit, Edit, LINE_LIMIT, Text, read_edit};
use regex_ast::{BadRegex, read_regex};
use std::alloc::Global;

/// The text of the expression that the edit adds.
fn added_expression(edit: &Edit) -> Option<&[u8]>
    ensures { option_map (λ text. text.now) result ≡ added_expression edit.now }
{
    match edit {
        Edit::AddToken(definition) => Some(definition.expression.bytes()),
        Edit::AddSkip(definition) => Some(definition.expression.bytes()),
        _ => None,
    }
}

/// Refuses an edit that adds something else than an expression.
fn check_expression(alloc: Global, edit: &Edit) -> Result<(), Refusal>
    requires { IsSound edit.now }
    ensures has { OnOk result (AddsExpression edit.now) }
    ensures refused { IfErr result (IsReason (LacksExpression edit.now)) }
{
    let Some(text) = added_expression(edit) else {
        return Ok(());
    };
    match read_regex(alloc, text) {
        Ok(_) => return Ok(()),
        Err(BadRegex::NoMemory) => return Err(Refusal::OutOfMemory),
        Err(_) => return Err(Refusal::Wrong(BadKind::BadRegex)),
    }
}

/// The edit that the line is. An expression that it adds is read too, and then dropped.
fn read_edit_line(alloc: Global, line: &[u8]) -> Result<Command, Refusal>
    requires short { length line.now ≤ LINE_LIMIT }
    requires one_line { IsLine line.now }
    ensures spells { IfOk result (SpellsAs EditLine line.now) }
    ensures refused { IfErr result (IsReason (IsWrongAs EditLine line.now)) }
{
    let edit = match read_edit(alloc, line) {
        Ok(edit) => edit,
        Err(BadEdit::NoMemory) => return Err(Refusal::OutOfMemory),
        Err(_) => return Err(Refusal::Wrong(BadKind::BadEdit)),
    };
    check_expression(alloc, &edit)?;
    Ok(Command::Edit(edit))
}

/// The text of the line, from what it writes behind its command word.
fn read_line_text(alloc: Global, written: &[u8]) -> Result<Text, Refusal>
    ensures spells { IfOk result (SpellsText written.now) }
    ensures refused { IfErr result (IsReason (IsWrongText written.now)) }
{
    let Some(text) = read_text(alloc, written)? else {
        return Err(Refusal::Wrong(BadKind::BadText));
    };
    if text.len() > TEXT_LIMIT {
        return Err(Refusal::Wrong(BadKind::TextTooLong));
    }
    Ok(Text::from_vec(text))
}

/// The command that the line asks for.
pub(crate) fn read_command(alloc: Global, line: &[u8], ask: Ask<'_>) -> Result<Command, Refusal>
    requires short { length line.now ≤ LINE_LIMIT }
    requires one_line { IsLine line.now }
    ensures spells { IfOk result (SpellsAs (sort_seen ask.entry) line.now) }
    ensures refused { IfErr result (IsReason (IsWrongAs (sort_seen ask.entry) line.now)) }
{
    match ask {
        Ask::Edit => read_edit_line(alloc, line),
        Ask::Parse(written) => Ok(Command::Parse(read_line_text(alloc, written)?)),
        Ask::Tokens(written) => Ok(Command::Tokens(read_line_text(alloc, written)?)),
        Ask::Stats => Ok(Command::Stats),
    }
}
