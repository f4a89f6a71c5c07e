//! What a state accepts.

ghost use Rattle.std.specs.Prelude.{◌≡◌, ◌↔◌, IsTrue, MatchOption, Contains};
ghost use Rattle.std.specs.Ordering.{is_lt};
ghost use Rattle.edit_log.specs.declared.definitions.DefId.{DefId};
ghost use Rattle.edit_log.specs.Live.{definition_cmp};
ghost use Rattle.isg_states.specs.declared.mark.Mark.{Mark};
ghost use Rattle.isg_states.specs.Patterns.{IsMark, IsLastMark};
ghost use Rattle.isg_states.specs.Expansion.{AreMarks};
ghost use Rattle.isg_states.specs.Winners.{HasLast, Accepts, IsFirstEnded, first_definition};

use crate::mark::Mark;
use crate::next_marks::live_positions;
use crate::scan_key::ScanKey;
use edit_log::{DefId, Grammar};

/// Whether the mark is a last position of its definition.
fn is_last(grammar: &Grammar, mark: Mark) -> bool
    requires { IsMark grammar.now.grammar mark }
    ensures { IsTrue result ↔ IsLastMark grammar.now.grammar mark }
{
    live_positions(grammar, mark.def)
        .last()
        .contains(&mark.index)
}

/// Whether the definition comes before the other: a literal before tokens and skips, and then the lower number.
fn is_before(a: DefId, b: DefId) -> bool
    ensures { result ≡ is_lt (definition_cmp a b) }
{
    match (a, b) {
        (DefId::Literal(a), DefId::Literal(b)) => a.0 < b.0,
        (DefId::Literal(_), DefId::Named(_)) => true,
        (DefId::Named(_), DefId::Literal(_)) => false,
        (DefId::Named(a), DefId::Named(b)) => a.0 < b.0,
    }
}

/// The first of the two.
fn first_definition(before: Option<DefId>, definition: DefId) -> DefId
    ensures { result ≡ first_definition before definition }
{
    match before {
        Some(other) if is_before(other, definition) => other,
        _ => definition,
    }
}

/// The first of the definitions that have a last position among the marks.
fn first_ended(grammar: &Grammar, marks: &[Mark]) -> Option<DefId>
    requires { (mark : Mark) → Contains marks.now mark → IsMark grammar.now.grammar mark }
    ensures { IsFirstEnded grammar.now.grammar marks.now result }
{
    let mut winner = None;
    for mark in marks {
        if is_last(grammar, *mark) {
            winner = Some(first_definition(winner, mark.def));
        }
    }
    winner
}

/// Of the definitions that have a last position in the state, the first: a literal before tokens and skips, and
/// then the lower number. There is none for the start.
pub fn accepts(grammar: &Grammar, key: &ScanKey) -> Option<DefId>
    requires { AreMarks grammar.now.grammar key.now }
    ensures { MatchOption result ((definition : DefId) → HasLast grammar.now.grammar key.now definition → ⊥)
        (λ winner. Accepts grammar.now.grammar key.now winner) }
{
    match key {
        ScanKey::Start => None,
        ScanKey::Set(marks) => first_ended(grammar, marks.items()),
    }
}
