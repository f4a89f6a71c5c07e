//! Edits of lines, and the grammar that takes them.

ghost use Rattle.std.specs.Prelude.{◌≡◌, ◌==◌, ◌≤◌, IfOk, OnOk, length, not};
ghost use Rattle.std.specs.List.{list_all};
ghost use Rattle.grammar_text.specs.Limits.{IsSound};
ghost use Rattle.regex_ast.specs.Expressions.{Expression};
ghost use Rattle.regex_ast.specs.Refusals.{SpellsWithinLimits};
ghost use Rattle.edit_log.specs.Replicas.{IsReadyFor};
ghost use Rattle.edit_log.specs.Verdict.{IsProper, HasExpression};

use edit_log::{Entry, Grammar, Ready, Refusal, may};
use grammar_text::{EDIT_LIMIT, Edit, Text, read_edit};
use regex_ast::read_regex;
use std::alloc::{AllocError, Global};

fn is_line(bytes: &[u8]) -> bool
    ensures { result ≡ list_all (λ byte. not (byte == 10)) bytes.now }
{
    bytes.iter().all(|byte| *byte != b'\n')
}

/// The edit of a line.
fn read(alloc: Global, line: &str) -> Result<Edit, AllocError>
    ensures { IfOk result IsSound }
{
    let bytes = line.as_bytes();
    if bytes.len() > EDIT_LIMIT {
        return Err(AllocError);
    }
    if !is_line(bytes) {
        return Err(AllocError);
    }
    match read_edit(alloc, bytes) {
        Ok(edit) => Ok(edit),
        Err(_) => Err(AllocError),
    }
}

fn check_expression(alloc: Global, expression: &Text) -> Result<(), AllocError>
    requires { length expression.now ≤ EDIT_LIMIT }
    ensures { OnOk result ((e : Expression) × SpellsWithinLimits expression.now e) }
{
    match read_regex(alloc, expression.bytes()) {
        Ok(_) => Ok(()),
        Err(_) => Err(AllocError),
    }
}

fn check_expressions(alloc: Global, edit: &Edit) -> Result<(), AllocError>
    requires { IsSound edit.now }
    ensures { OnOk result (HasExpression edit.now) }
{
    match edit {
        Edit::AddToken(definition) => check_expression(alloc, &definition.expression),
        Edit::AddSkip(definition) => check_expression(alloc, &definition.expression),
        Edit::AddRule(_) => Ok(()),
        Edit::DropRule(_) => Ok(()),
        Edit::DropToken(_) => Ok(()),
        Edit::DropSkip(_) => Ok(()),
    }
}

/// The edit of a line that a grammar may be asked for. A line that is no edit counts as out of memory.
pub fn proper(alloc: Global, line: &str) -> Result<Edit, AllocError>
    ensures { IfOk result IsProper }
{
    let edit = read(alloc, line)?;
    check_expressions(alloc, &edit)?;
    Ok(edit)
}

/// The edit ready to be applied, where the grammar takes it.
pub fn prepared(alloc: Global, grammar: &mut Grammar, edit: &Edit) -> Result<Ready, Refusal>
    requires { IsProper edit.now }
    ensures { IfOk result (IsReadyFor grammar.new edit.now) }
{
    let entry = may(alloc, grammar, edit)?;
    let ready = grammar.prepare(&entry)?;
    Ok(ready)
}

/// Applies the edit where the grammar takes it.
pub fn take(alloc: Global, grammar: &mut Grammar, edit: &Edit) -> Result<(), Refusal>
    requires { IsProper edit.now }
{
    let ready = prepared(alloc, grammar, edit)?;
    grammar.apply(ready);
    Ok(())
}

/// Applies the edit of the line where the grammar takes it.
pub fn take_line(alloc: Global, grammar: &mut Grammar, line: &str) -> Result<(), Refusal> {
    let edit = proper(alloc, line)?;
    take(alloc, grammar, &edit)
}

/// The entry of the edit of the line.
pub fn entry_line(alloc: Global, grammar: &Grammar, line: &str) -> Result<Entry, Refusal> {
    let edit = proper(alloc, line)?;
    may(alloc, grammar, &edit)
}
