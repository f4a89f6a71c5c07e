//! Positions with their classes, and those of them whose class has a byte.

ghost use Rattle.std.specs.Prelude.{◌≡◌, map, IfOk, OnOk, Contains};
ghost use Rattle.isg_states.specs.declared.mark.Mark.{Mark};
ghost use Rattle.isg_states.specs.declared.candidates.Candidate.{Candidate};
ghost use Rattle.isg_states.specs.Patterns.{IsMark};
ghost use Rattle.isg_states.specs.Candidates.{marks_of, marks_with, IsClass, AreClasses};

use crate::NoMemory;
use crate::mark::Mark;
use crate::next_marks::live_positions;
use edit_log::Grammar;
use regex_ast::ByteSet;
use std::alloc::Global;

/// A position, and the bytes that may stand there.
#[derive(Clone, Copy)]
pub(crate) struct Candidate<'g> {
    /// The position with its definition.
    pub(crate) mark: Mark,
    /// The bytes that may stand there.
    pub(crate) class: &'g ByteSet,
}

/// The class of a mark.
fn class_of(grammar: &Grammar, mark: Mark) -> &ByteSet
    requires { IsMark grammar.now.grammar mark }
    ensures { IsClass grammar.now.grammar mark result.now }
{
    live_positions(grammar, mark.def).class(mark.index)
}

/// The marks with their classes.
pub(crate) fn candidates<'g>(
    alloc: Global,
    grammar: &'g Grammar,
    marks: &[Mark],
) -> Result<Vec<Candidate<'g>>, NoMemory>
    requires { (mark : Mark) → Contains marks.now mark → IsMark grammar.now.grammar mark }
    ensures marks { IfOk result (λ found. marks_of found.items ≡ marks.now) }
    ensures classes { IfOk result (λ found. AreClasses grammar.now.grammar found.items) }
{
    let mut found = Vec::with_capacity(alloc, marks.len())?;
    for mark in marks {
        found.push(Candidate {
            mark: *mark,
            class: class_of(grammar, *mark),
        })?;
    }
    Ok(found)
}

/// Puts those whose class has the byte into `found`, and nothing else.
pub(crate) fn with_byte(
    candidates: &[Candidate],
    byte: u8,
    found: &mut Vec<Mark>,
) -> Result<(), NoMemory>
    ensures { OnOk result (found.new.items ≡ marks_with candidates.now byte) }
{
    found.clear();
    for candidate in candidates {
        if candidate.class.has(byte) {
            found.push(candidate.mark)?;
        }
    }
    Ok(())
}
