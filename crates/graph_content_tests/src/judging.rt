//! What is told of the rows that an edit leaves.

ghost use Rattle.edit_log.specs.Verdict.{IsProper};

use crate::answers::{dropped_of, touch_of};
use crate::rows::Told;
use crate::{item_rows, scan_rows};
use edit_lines::{prepared, proper, take};
use edit_log::{Grammar, Refusal, Touch};
use grammar_text::Edit;
use graph_content::Modify;
use std::alloc::{AllocError, Global};

/// Adds the number and the word.
fn tell(alloc: Global, told: &mut String, number: u32, word: &str) -> Result<(), AllocError> {
    told.push_str(&format!(in alloc; " {number} {word}")?)
}

/// Adds how many rows were kept, how many were refused, and how many of both wrongly, where any were.
fn tell_rows(alloc: Global, told: &mut String, rows: &Told) -> Result<(), AllocError> {
    tell(alloc, told, rows.kept, "kept,")?;
    tell(alloc, told, rows.refused, "refused")?;
    if rows.wrong == 0 {
        return Ok(());
    }
    told.push_str(",")?;
    tell(alloc, told, rows.wrong, "WRONG")
}

/// What is told of item sets and of states, and that the counts of the choice differ from it, where they do.
fn told_rows(
    alloc: Global,
    items: &Told,
    scan: &Told,
    dropped: (u32, u32),
) -> Result<String, AllocError> {
    let mut told = String::from_str(alloc, " item sets")?;
    tell_rows(alloc, &mut told, items)?;
    told.push_str("; states")?;
    tell_rows(alloc, &mut told, scan)?;
    if dropped.0 != items.refused {
        told.push_str("; item sets COUNTED WRONG")?;
    }
    if dropped.1 != scan.refused {
        told.push_str("; states COUNTED WRONG")?;
    }
    Ok(told)
}

/// What is told of all rows that are reached in the grammar.
fn judge_all(
    alloc: Global,
    grammar: &Grammar,
    next: &Grammar,
    touch: &Touch,
) -> Result<String, AllocError> {
    let mut modify = Modify::new(grammar, touch);
    let items = item_rows::judge_all(alloc, grammar, next, &mut modify)?;
    let scan = scan_rows::judge_all(alloc, grammar, next, &mut modify)?;
    told_rows(alloc, &items, &scan, dropped_of(&modify))
}

/// A grammar, and the same grammar, which is to have the next edit first.
#[derive(Drop)]
pub(crate) struct Grammars {
    /// The grammar whose rows are judged.
    now: Grammar,
    /// The other one, by whose expansions they are judged.
    next: Grammar,
}

impl Grammars {
    pub(crate) fn empty(alloc: Global) -> Result<Grammars, AllocError> {
        let now = Grammar::empty(alloc)?;
        let next = Grammar::empty(alloc)?;
        Ok(Grammars { now, next })
    }
}

/// What is told of the rows that the edit leaves in the grammar, where the next grammar has it.
fn judge_edit(
    alloc: Global,
    grammar: &mut Grammar,
    next: &Grammar,
    edit: &Edit,
) -> Result<String, Refusal>
    requires { IsProper edit.now }
{
    let ready = prepared(alloc, grammar, edit)?;
    let told = judge_all(alloc, grammar, next, touch_of(&ready))?;
    Ok(told)
}

/// What is told of the rows that the edit leaves. Then both grammars have it.
fn judged(alloc: Global, grammars: &mut Grammars, edit: &Edit) -> Result<String, Refusal>
    requires { IsProper edit.now }
{
    take(alloc, &mut grammars.next, edit)?;
    let told = judge_edit(alloc, &mut grammars.now, &grammars.next, edit)?;
    take(alloc, &mut grammars.now, edit)?;
    Ok(told)
}

/// The same of the edit of a line.
fn judged_line(alloc: Global, grammars: &mut Grammars, line: &str) -> Result<String, Refusal> {
    let edit = proper(alloc, line)?;
    judged(alloc, grammars, &edit)
}

fn told_edit(alloc: Global, grammars: &mut Grammars, line: &str) -> Result<String, AllocError> {
    match judged_line(alloc, grammars, line) {
        Ok(told) => Ok(told),
        Err(Refusal::NoMemory) => Err(AllocError),
        Err(_) => String::from_str(alloc, " refused"),
    }
}

/// Empty grammars in place of the old ones.
fn told_new(alloc: Global, grammars: &mut Grammars) -> Result<String, AllocError> {
    *grammars = Grammars::empty(alloc)?;
    Ok(String::new(alloc))
}

/// The answer to the question. Both grammars are the same before and after it.
pub(crate) fn answer(
    alloc: Global,
    grammars: &mut Grammars,
    question: &str,
) -> Result<String, AllocError> {
    match question.strip_prefix("edit ") {
        Some(line) => told_edit(alloc, grammars, line),
        None => told_new(alloc, grammars),
    }
}
