//! The rows of item sets.

ghost use Rattle.std.specs.Prelude.{◌≡◌, ◌<◌, IfOk, IfSome, IsTrue};
ghost use Rattle.item_sets.specs.Prefixes.{IsItem, AreItems};
ghost use Rattle.item_sets.specs.Expansions.{IsExpansionOf};
ghost use Rattle.row_coding.specs.Words.{item_payload_words};
ghost use Rattle.row_coding.specs.Rows.{kernel as kernel_key, row_words};
ghost use Rattle.graph_content.specs.Affected.{IsKey};
ghost use Rattle.graph_content.specs.Rows.{Fits};

use crate::rows::{Told, keep, row_of, stays};
use edit_log::Grammar;
use graph_content::{Modify, item_key, item_payload};
use item_sets::{Expansion, Item, Kernel, expand};
use std::alloc::{AllocError, Global};
use std::marker::Brand;
use std::sync::ledger::{Blank, Ledger};
use steps::Steps;

/// Whether the item is one of the grammar.
fn is_item(grammar: &Grammar, item: Item) -> bool
    ensures { IsTrue result → IsItem grammar.now.grammar.rules item }
{
    if item.rule.0 == 0 {
        return item.dot <= 1;
    }
    match grammar.rule(item.rule) {
        Some(rule) => item.dot as usize <= rule.right.as_slice().len(),
        None => false,
    }
}

fn are_items(grammar: &Grammar, items: &[Item]) -> bool
    ensures { IsTrue result → AreItems grammar.now.grammar.rules items.now }
{
    for item in items {
        if !is_item(grammar, *item) {
            return false;
        }
    }
    true
}

/// The expansion of the kernel, with steps that are counted nowhere.
fn expanded<L: Ledger>(
    alloc: Global,
    grammar: &Grammar,
    kernel: &Kernel,
    blank: Blank,
) -> Result<Expansion, AllocError>
    requires name { blank.name ≡ L.name }
    requires parts { blank.parts ≡ L.parts }
    requires some { 0 < L.parts }
    requires items { AreItems grammar.now.grammar.rules kernel.now }
    ensures { IfOk result (λ e. IsExpansionOf grammar.now.grammar.rules kernel.now e) }
{
    let mut steps = Steps::<L>::new(blank);
    let expansion = expand(alloc, grammar, kernel, &mut steps)?;
    Ok(expansion)
}

/// The expansion of the kernel, where it is one of the grammar.
fn expansion_in(
    alloc: Global,
    grammar: &Grammar,
    kernel: &Kernel,
) -> Result<Option<Expansion>, AllocError>
    ensures { IfOk result (λ found. IfSome found (λ e.
        IsKey grammar.now.grammar (kernel_key kernel.now) × IsExpansionOf grammar.now.grammar.rules kernel.now e)) }
{
    if !are_items(grammar, kernel.items()) {
        return Ok(None);
    }
    let expansion = expanded::<Brand>(alloc, grammar, kernel, Blank::new(1))?;
    Ok(Some(expansion))
}

/// The row of the kernel and the expansion.
fn row_with(alloc: Global, kernel: &Kernel, expansion: &Expansion) -> Result<Vec<u64>, AllocError>
    ensures { IfOk result (λ row. row.items ≡ row_words (kernel_key kernel.now) (item_payload_words expansion.now)) }
{
    let key = item_key(alloc, kernel)?;
    let payload = item_payload(alloc, expansion)?;
    row_of(alloc, &key, &payload)
}

/// The row of the kernel, where it is one of the grammar.
fn row_in(alloc: Global, grammar: &Grammar, kernel: &Kernel) -> Result<Option<Vec<u64>>, AllocError>
    ensures { IfOk result (λ found. IfSome found (λ row. Fits grammar.now.grammar row.items)) }
{
    match expansion_in(alloc, grammar, kernel)? {
        Some(expansion) => {
            let row = row_with(alloc, kernel, &expansion)?;
            Ok(Some(row))
        }
        None => Ok(None),
    }
}

/// The kernels behind the moves.
fn behind(alloc: Global, expansion: &Expansion) -> Result<Vec<Kernel>, AllocError> {
    let mut found = Vec::new(alloc);
    for entry in expansion.moves.as_slice() {
        found.push(entry.1.clone()?)?;
    }
    Ok(found)
}

/// Adds the kernels that are not there.
fn add_new(kernels: &mut Vec<Kernel>, found: Vec<Kernel>) -> Result<(), AllocError> {
    for kernel in found {
        if !kernels.contains(&kernel) {
            kernels.push(kernel)?;
        }
    }
    Ok(())
}

/// Adds the kernels behind the moves of this one that are not there.
fn add_behind(
    alloc: Global,
    grammar: &Grammar,
    kernels: &mut Vec<Kernel>,
    at: usize,
) -> Result<(), AllocError> {
    if at >= kernels.len() {
        return Ok(());
    }
    if let Some(expansion) = expansion_in(alloc, grammar, &kernels[at])? {
        add_new(kernels, behind(alloc, &expansion)?)?;
    }
    Ok(())
}

/// The kernels that are reached from the start. No grammar of the input has as many as are gone over.
fn reached(alloc: Global, grammar: &Grammar) -> Result<Vec<Kernel>, AllocError> {
    let mut kernels = Vec::new(alloc);
    kernels.push(Kernel::start(alloc))?;
    for at in 0..1000 {
        add_behind(alloc, grammar, &mut kernels, at)?;
    }
    Ok(kernels)
}

/// Whether the row of the kernel is kept, and whether the kernel has the same row in the next grammar.
fn judge(
    alloc: Global,
    grammar: &Grammar,
    next: &Grammar,
    modify: &mut Modify<'_>,
    kernel: &Kernel,
    told: &mut Told,
) -> Result<(), AllocError>
    requires { modify.old.grammar ≡ grammar.now.grammar }
    ensures { modify.new.grammar ≡ modify.old.grammar }
{
    if let Some(row) = row_in(alloc, grammar, kernel)? {
        let other = row_in(alloc, next, kernel)?;
        let kept = keep(modify, &row);
        told.add(kept, stays(&row, other));
    }
    Ok(())
}

/// What is told of all item sets of the grammar.
pub(crate) fn judge_all(
    alloc: Global,
    grammar: &Grammar,
    next: &Grammar,
    modify: &mut Modify<'_>,
) -> Result<Told, AllocError>
    requires { modify.old.grammar ≡ grammar.now.grammar }
    ensures { modify.new.grammar ≡ modify.old.grammar }
{
    let mut told = Told::new();
    let kernels = reached(alloc, grammar)?;
    for kernel in &kernels {
        judge(alloc, grammar, next, modify, kernel, &mut told)?;
    }
    Ok(told)
}
