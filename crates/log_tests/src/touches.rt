//! What edits touch.

ghost use Rattle.edit_log.specs.Verdict.{IsProper};

use crate::answers::touch_of;
use crate::telling::{tell, tell_definitions};
use crate::verdicts::refused;
use edit_lines::{prepared, proper, take};
use edit_log::{Grammar, Refusal, Touch};
use grammar_text::Edit;
use std::alloc::{AllocError, Global};

/// The left side, the rule that ends, whether scans change, and the definitions that end.
fn tell_touch(alloc: Global, touch: &Touch) -> Result<String, AllocError> {
    let mut told = String::new(alloc);
    if let Some(left) = touch.left {
        tell(alloc, &mut told, " left ", left.0)?;
    }
    if let Some(rule) = touch.gone_rule {
        tell(alloc, &mut told, " rule ", rule.0)?;
    }
    if touch.scan {
        told.push_str(" scans")?;
    }
    tell_definitions(alloc, &mut told, touch.gone_defs.as_slice())?;
    Ok(told)
}

/// What the edit would touch.
fn touched(alloc: Global, grammar: &mut Grammar, edit: &Edit) -> Result<String, Refusal>
    requires { IsProper edit.now }
{
    let ready = prepared(alloc, grammar, edit)?;
    let told = tell_touch(alloc, touch_of(&ready))?;
    Ok(told)
}

/// What the edit of the line touches, which is applied then.
fn touched_by(alloc: Global, grammar: &mut Grammar, line: &str) -> Result<String, Refusal> {
    let edit = proper(alloc, line)?;
    let told = touched(alloc, grammar, &edit)?;
    take(alloc, grammar, &edit)?;
    Ok(told)
}

/// What the edit of the line touches, which is applied then, or the refusal.
pub(crate) fn told_touch(
    alloc: Global,
    grammar: &mut Grammar,
    line: &str,
) -> Result<String, AllocError> {
    match touched_by(alloc, grammar, line) {
        Ok(told) => Ok(told),
        Err(refusal) => refused(alloc, &refusal),
    }
}
