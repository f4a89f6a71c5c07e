//! The rows of the scanner's states.

ghost use Rattle.std.specs.Prelude.{◌≡◌, ◌<◌, IfOk, IfSome, IsTrue, Contains};
ghost use Rattle.isg_states.specs.declared.mark.Mark.{Mark as AMark};
ghost use Rattle.graph_content_tests.specs.LiveMarks.{IsLiveMark};
ghost use Rattle.isg_states.specs.Expansion.{AreMarks, IsScanExpansionOf};
ghost use Rattle.row_coding.specs.Words.{scan_payload_words};
ghost use Rattle.row_coding.specs.Rows.{scan as scanner_key, row_words};
ghost use Rattle.graph_content.specs.Affected.{IsKey};
ghost use Rattle.graph_content.specs.Rows.{Fits};

use crate::rows::{Told, keep, row_of, stays};
use edit_log::Grammar;
use graph_content::{Modify, scan_key, scan_payload};
use isg_states::{Mark, ScanExpansion, ScanKey, expand_scan};
use std::alloc::{AllocError, Global};
use std::marker::Brand;
use std::sync::ledger::{Blank, Ledger};
use steps::Steps;

/// Whether the mark is one of the grammar.
fn is_mark(grammar: &Grammar, mark: Mark) -> bool
    ensures { IsTrue result → IsLiveMark grammar.now.grammar mark }
{
    match grammar.positions(mark.def) {
        Some(positions) => mark.index < positions.count(),
        None => false,
    }
}

fn are_marks(grammar: &Grammar, marks: &[Mark]) -> bool
    ensures { IsTrue result → ((mark : AMark) → Contains marks.now mark → IsLiveMark grammar.now.grammar mark) }
{
    for mark in marks {
        if !is_mark(grammar, *mark) {
            return false;
        }
    }
    true
}

/// Whether the key is one of the grammar.
fn is_key(grammar: &Grammar, key: &ScanKey) -> bool
    ensures { IsTrue result → IsKey grammar.now.grammar (scanner_key key.now) }
{
    match key {
        ScanKey::Start => true,
        ScanKey::Set(marks) => are_marks(grammar, marks.items()),
    }
}

/// The expansion of the key, with steps that are counted nowhere.
fn expanded<L: Ledger>(
    alloc: Global,
    grammar: &Grammar,
    key: &ScanKey,
    blank: Blank,
) -> Result<ScanExpansion, AllocError>
    requires name { blank.name ≡ L.name }
    requires parts { blank.parts ≡ L.parts }
    requires some { 0 < L.parts }
    requires marks { AreMarks grammar.now.grammar key.now }
    ensures { IfOk result (λ e. IsScanExpansionOf grammar.now.grammar key.now e.ranges) }
{
    let mut steps = Steps::<L>::new(blank);
    let expansion = expand_scan(alloc, grammar, key, &mut steps)?;
    Ok(expansion)
}

/// The expansion of the key, where it is one of the grammar.
fn expansion_in(
    alloc: Global,
    grammar: &Grammar,
    key: &ScanKey,
) -> Result<Option<ScanExpansion>, AllocError>
    ensures { IfOk result (λ found. IfSome found (λ e.
        IsKey grammar.now.grammar (scanner_key key.now) × IsScanExpansionOf grammar.now.grammar key.now e.ranges)) }
{
    if !is_key(grammar, key) {
        return Ok(None);
    }
    let expansion = expanded::<Brand>(alloc, grammar, key, Blank::new(1))?;
    Ok(Some(expansion))
}

/// The row of the key and the expansion.
fn row_with(alloc: Global, key: &ScanKey, expansion: &ScanExpansion) -> Result<Vec<u64>, AllocError>
    ensures { IfOk result (λ row. row.items ≡ row_words (scanner_key key.now) (scan_payload_words expansion.now)) }
{
    let key = scan_key(alloc, key)?;
    let payload = scan_payload(alloc, expansion)?;
    row_of(alloc, &key, &payload)
}

/// The row of the key, where it is one of the grammar.
fn row_in(alloc: Global, grammar: &Grammar, key: &ScanKey) -> Result<Option<Vec<u64>>, AllocError>
    ensures { IfOk result (λ found. IfSome found (λ row. Fits grammar.now.grammar row.items)) }
{
    match expansion_in(alloc, grammar, key)? {
        Some(expansion) => {
            let row = row_with(alloc, key, &expansion)?;
            Ok(Some(row))
        }
        None => Ok(None),
    }
}

/// The keys to which the bytes lead.
fn behind(alloc: Global, expansion: &ScanExpansion) -> Result<Vec<ScanKey>, AllocError> {
    let mut found = Vec::new(alloc);
    for range in expansion.ranges.as_slice() {
        found.push(range.2.clone()?)?;
    }
    Ok(found)
}

/// Adds the keys that are not there.
fn add_new(keys: &mut Vec<ScanKey>, found: Vec<ScanKey>) -> Result<(), AllocError> {
    for key in found {
        if !keys.contains(&key) {
            keys.push(key)?;
        }
    }
    Ok(())
}

/// Adds the keys to which bytes lead from this one and that are not there.
fn add_behind(
    alloc: Global,
    grammar: &Grammar,
    keys: &mut Vec<ScanKey>,
    at: usize,
) -> Result<(), AllocError> {
    if at >= keys.len() {
        return Ok(());
    }
    if let Some(expansion) = expansion_in(alloc, grammar, &keys[at])? {
        add_new(keys, behind(alloc, &expansion)?)?;
    }
    Ok(())
}

/// The keys that are reached from the start. No grammar of the input has as many as are gone over.
fn reached(alloc: Global, grammar: &Grammar) -> Result<Vec<ScanKey>, AllocError> {
    let mut keys = Vec::new(alloc);
    keys.push(ScanKey::Start)?;
    for at in 0..1000 {
        add_behind(alloc, grammar, &mut keys, at)?;
    }
    Ok(keys)
}

/// Whether the row of the key is kept, and whether the key has the same row in the next grammar.
fn judge(
    alloc: Global,
    grammar: &Grammar,
    next: &Grammar,
    modify: &mut Modify<'_>,
    key: &ScanKey,
    told: &mut Told,
) -> Result<(), AllocError>
    requires { modify.old.grammar ≡ grammar.now.grammar }
    ensures { modify.new.grammar ≡ modify.old.grammar }
{
    if let Some(row) = row_in(alloc, grammar, key)? {
        let other = row_in(alloc, next, key)?;
        let kept = keep(modify, &row);
        told.add(kept, stays(&row, other));
    }
    Ok(())
}

/// What is told of all states of the grammar's scanner.
pub(crate) fn judge_all(
    alloc: Global,
    grammar: &Grammar,
    next: &Grammar,
    modify: &mut Modify<'_>,
) -> Result<Told, AllocError>
    requires { modify.old.grammar ≡ grammar.now.grammar }
    ensures { modify.new.grammar ≡ modify.old.grammar }
{
    let mut told = Told::new();
    let keys = reached(alloc, grammar)?;
    for key in &keys {
        judge(alloc, grammar, next, modify, key, &mut told)?;
    }
    Ok(told)
}
