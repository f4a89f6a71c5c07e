//! Grammars by the lines of their edits, and the kernels that may be expanded.

ghost use Rattle.std.specs.Prelude.{IsTrue};
ghost use Rattle.item_sets.specs.Prefixes.{IsItem, AreItems};

use edit_lines::take_line;
use edit_log::{Grammar, Refusal};
use item_sets::{Item, Kernel};
use std::alloc::Global;

/// The grammar of these lines.
pub(crate) fn grammar_of(alloc: Global, edits: &str) -> Result<Grammar, Refusal> {
    let mut grammar = Grammar::empty(alloc)?;
    for line in edits.lines() {
        take_line(alloc, &mut grammar, line)?;
    }
    Ok(grammar)
}

fn is_item(grammar: &Grammar, item: Item) -> bool
    ensures { IsTrue result → IsItem grammar.now.grammar.rules item }
{
    if item.rule.0 == 0 {
        return item.dot <= 1;
    }
    match grammar.rule(item.rule) {
        Some(rule) => item.dot as usize <= rule.right.as_slice().len(),
        None => false,
    }
}

/// Whether each item of the kernel is one of the grammar.
pub(crate) fn are_items(grammar: &Grammar, kernel: &Kernel) -> bool
    ensures { IsTrue result → AreItems grammar.now.grammar.rules kernel.now }
{
    for item in kernel.items() {
        if !is_item(grammar, *item) {
            return false;
        }
    }
    true
}
