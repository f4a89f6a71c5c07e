//! The positions that can come next from a state, whatever the byte.

ghost use Rattle.std.specs.Prelude.{◌≡◌, ◌↔◌, ◌+◌, ◌≤◌, ◌<◌, ◌⊎◌, ℕ, length, IfOk, OnOk, IfSome, IsTrue, Contains};
ghost use Rattle.std.specs.List.Sorted.{IsStrictlySortedBy};
ghost use Rattle.std.specs.declared.cmp.Ordering.TheVariants.{Less};
ghost use Rattle.regex_ast.specs.Bytes.{has};
ghost use Rattle.edit_log.specs.Live.{IsLive};
ghost use Rattle.edit_log.specs.declared.definitions.DefId.{DefId};
ghost use Rattle.isg_states.specs.declared.mark.Mark.{Mark};
ghost use Rattle.isg_states.specs.Marks.{mark_cmp, ListsMarks};
ghost use Rattle.isg_states.specs.Patterns.{IsFirstMark, FollowsMark, IsMark};
ghost use Rattle.isg_states.specs.Expansion.{AreMarks, CanFollow};
ghost use Rattle.isg_states.specs.Candidates.{AreSmall, OneOf, ArePositions};

use crate::NoMemory;
use crate::mark::Mark;
use crate::scan_key::ScanKey;
use edit_log::{DefId, Grammar};
use regex_ast::{POSITION_LIMIT, Positions};
use std::alloc::Global;
use std::sync::ledger::Ledger;
use steps::Steps;

/// The positions of a definition that is live.
pub(crate) fn live_positions(grammar: &Grammar, definition: DefId) -> &Positions
    requires { IsLive grammar.now.grammar definition }
    ensures { ArePositions grammar.now.grammar definition result.now }
{
    match grammar.positions(definition) {
        Some(positions) => {
            // So an index is below 256, and the numbers of marks tell them apart.
            prove!(positions.count() <= POSITION_LIMIT);
            positions
        }
        None => unreachable!(),
    }
}

/// Whether the mark belongs behind all of these.
fn is_above(marks: &[Mark], mark: Mark) -> bool
    requires { IsStrictlySortedBy mark_cmp marks.now }
    ensures { IsTrue result ↔ ((other : Mark) → Contains marks.now other → mark_cmp other mark ≡ Less) }
{
    let Some(last) = marks.last() else {
        return true;
    };
    last.number() < mark.number()
}

/// Adds the mark where it belongs, if it is not there. Then it is one step.
fn add_mark<L: Ledger>(
    found: &mut Vec<Mark>,
    mark: Mark,
    steps: &mut Steps<L>,
) -> Result<(), NoMemory>
    requires order { IsStrictlySortedBy mark_cmp found.old.items }
    requires small { AreSmall found.old.items }
    requires index { mark.index < 256 }
    ensures added { OnOk result (ListsMarks (λ m. Contains found.old.items m ⊎ (m ≡ mark)) found.new.items) }
    ensures steps { OnOk result (steps.new + length found.old.items ≡ steps.old + length found.new.items) }
    ensures counted { steps.old ≤ steps.new }
{
    // Most come in their order.
    if is_above(found, mark) {
        found.push(mark)?;
        steps.take();
        return Ok(());
    }
    let number = mark.number();
    match found.binary_search_by(|other| other.number().cmp(&number)) {
        Ok(_) => Ok(()),
        Err(place) => {
            found.insert(place, mark)?;
            steps.take();
            Ok(())
        }
    }
}

/// Adds the marks of the definition with these indices, those that are not there.
fn add_marks<L: Ledger>(
    found: &mut Vec<Mark>,
    definition: DefId,
    indices: &[u32],
    steps: &mut Steps<L>,
) -> Result<(), NoMemory>
    requires order { IsStrictlySortedBy mark_cmp found.old.items }
    requires small { AreSmall found.old.items }
    requires indices { (index : ℕ) → IsTrue (has indices.now index) → index < 256 }
    ensures added { OnOk result (ListsMarks (λ m. Contains found.old.items m ⊎ OneOf definition indices.now m) found.new.items) }
    ensures steps { OnOk result (steps.new + length found.old.items ≡ steps.old + length found.new.items) }
    ensures counted { steps.old ≤ steps.new }
{
    for index in indices {
        let mark = Mark {
            def: definition,
            index: *index,
        };
        add_mark(found, mark, steps)?;
    }
    Ok(())
}

/// The first positions of live definitions.
fn first_marks<L: Ledger>(
    alloc: Global,
    grammar: &Grammar,
    steps: &mut Steps<L>,
) -> Result<Vec<Mark>, NoMemory>
    ensures marks { IfOk result (λ marks. ListsMarks (IsFirstMark grammar.now.grammar) marks.items) }
    ensures steps { IfOk result (λ marks. steps.new ≡ steps.old + length marks.items) }
    ensures counted { steps.old ≤ steps.new }
{
    let mut found = Vec::new(alloc);
    for definition in grammar.live_defs() {
        let positions = live_positions(grammar, *definition);
        add_marks(&mut found, *definition, positions.first(), steps)?;
    }
    Ok(found)
}

/// The positions that follow one of the marks.
fn following_marks<L: Ledger>(
    alloc: Global,
    grammar: &Grammar,
    members: &[Mark],
    steps: &mut Steps<L>,
) -> Result<Vec<Mark>, NoMemory>
    requires { (mark : Mark) → Contains members.now mark → IsMark grammar.now.grammar mark }
    ensures marks { IfOk result (λ marks. ListsMarks (λ m. (member : Mark) × Contains members.now member
        × FollowsMark grammar.now.grammar member m) marks.items) }
    ensures steps { IfOk result (λ marks. steps.new ≡ steps.old + length marks.items) }
    ensures counted { steps.old ≤ steps.new }
{
    let mut found = Vec::new(alloc);
    for member in members {
        let positions = live_positions(grammar, member.def);
        add_marks(
            &mut found,
            member.def,
            positions.follow(member.index),
            steps,
        )?;
    }
    Ok(found)
}

/// The positions that can come next, ascending. Each of them is one step.
pub(crate) fn next_marks<L: Ledger>(
    alloc: Global,
    grammar: &Grammar,
    key: &ScanKey,
    steps: &mut Steps<L>,
) -> Result<Vec<Mark>, NoMemory>
    requires { AreMarks grammar.now.grammar key.now }
    ensures marks { IfOk result (λ marks. ListsMarks (CanFollow grammar.now.grammar key.now) marks.items) }
    ensures steps { IfOk result (λ marks. steps.new ≡ steps.old + length marks.items) }
    ensures counted { steps.old ≤ steps.new }
{
    match key {
        ScanKey::Start => first_marks(alloc, grammar, steps),
        ScanKey::Set(marks) => following_marks(alloc, grammar, marks.items(), steps),
    }
}
