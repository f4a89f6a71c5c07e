//! The closure of a kernel, by a work list of symbols.

ghost use Rattle.std.specs.Prelude.{◌≡◌, ◌+◌, ◌++◌, ◌≤◌, ◌<◌, length, List, OnOk, IfOk, Contains};
ghost use Rattle.std.specs.List.Sorted.{IsStrictlySortedBy};
ghost use Rattle.edit_log.specs.Lookups.{numbers_of_left};
ghost use Rattle.edit_log.specs.Facts.{IsWellFormed};
ghost use Rattle.item_sets.specs.declared.item.Item.{Item};
ghost use Rattle.item_sets.specs.Orders.{item_cmp};
ghost use Rattle.item_sets.specs.Prefixes.{AreItems, IsItem, item_at};
ghost use Rattle.item_sets.specs.Walks.{early_rules, added_items, IsWalk, Extends, IsClosureOf};

use crate::NoMemory;
use crate::item::Item;
use crate::walk::Walk;
use edit_log::Grammar;
use forest::{RuleId, SymbolId};
use std::alloc::Global;
use std::sync::ledger::Ledger;
use steps::Steps;

/// The rules that have the dot at 0 in the kernel itself: none, where it is the kernel of a prefix.
fn early_rules(alloc: Global, kernel: &[Item]) -> Result<Vec<RuleId>, NoMemory>
    ensures { IfOk result (λ rules. rules.items ≡ early_rules kernel.now) }
{
    kernel
        .iter()
        .filter(|item| item.dot == 0 && item.rule.0 != 0)
        .map(|item| item.rule)
        .collect(alloc)
}

/// Meets the items of the kernel.
fn visit_kernel<L: Ledger>(
    walk: &mut Walk,
    grammar: &Grammar,
    kernel: &[Item],
    steps: &mut Steps<L>,
) -> Result<(), NoMemory>
    requires formed { IsWellFormed grammar.now.grammar }
    requires items { AreItems grammar.now.grammar.rules kernel.now }
    ensures walk { OnOk result ((items : List Item)
        → IsWalk grammar.now.grammar.rules items walk.old.symbols walk.old.moves.items walk.old.reductions.items
        → IsWalk grammar.now.grammar.rules (items ++ kernel.now) walk.new.symbols walk.new.moves.items walk.new.reductions.items) }
    ensures steps { OnOk result (steps.new ≡ steps.old + length kernel.now) }
    ensures never_back { steps.old ≤ steps.new }
{
    for item in kernel {
        walk.visit(grammar, *item, steps)?;
    }
    Ok(())
}

/// Meets the rules of a symbol, with their dots at 0, but for those that begin in the kernel.
fn visit_rules<L: Ledger>(
    walk: &mut Walk,
    grammar: &Grammar,
    early: &[RuleId],
    symbol: SymbolId,
    steps: &mut Steps<L>,
) -> Result<(), NoMemory>
    requires { IsWellFormed grammar.now.grammar }
    ensures walk { OnOk result ((items : List Item)
        → IsWalk grammar.now.grammar.rules items walk.old.symbols walk.old.moves.items walk.old.reductions.items
        → IsWalk grammar.now.grammar.rules (items ++ added_items early.now (numbers_of_left grammar.now.grammar.rules symbol))
        walk.new.symbols walk.new.moves.items walk.new.reductions.items) }
    ensures extends { OnOk result (Extends walk.old.symbols walk.new.symbols) }
    ensures steps { OnOk result (steps.new ≡ steps.old + length (added_items early.now (numbers_of_left grammar.now.grammar.rules symbol))) }
    ensures never_back { steps.old ≤ steps.new }
{
    for number in grammar.rules_of(symbol) {
        if early.contains(number) {
            continue;
        }
        let item = Item {
            rule: *number,
            dot: 0,
        };
        walk.visit(grammar, item, steps)?;
    }
    Ok(())
}

/// The walk over the closure of the kernel. The symbols after dots are the work list: a symbol joins it once,
/// and its rules are met when its turn comes.
pub(crate) fn closure_of<L: Ledger>(
    alloc: Global,
    grammar: &Grammar,
    kernel: &[Item],
    steps: &mut Steps<L>,
) -> Result<Walk, NoMemory>
    requires formed { IsWellFormed grammar.now.grammar }
    requires items { AreItems grammar.now.grammar.rules kernel.now }
    requires ascends { IsStrictlySortedBy item_cmp kernel.now }
    ensures closure { IfOk result (λ walk. (items : List Item) × IsClosureOf grammar.now.grammar.rules kernel.now items
        × IsWalk grammar.now.grammar.rules items walk.symbols walk.moves.items walk.reductions.items
        × (steps.new ≡ steps.old + length items)) }
    ensures never_back { steps.old ≤ steps.new }
{
    let early = early_rules(alloc, kernel)?;
    let mut walk = Walk::new(alloc);
    visit_kernel(&mut walk, grammar, kernel, steps)?;
    let mut done = 0;
    while done < walk.symbols.as_slice().len() {
        let symbol = walk.symbols.as_slice()[done];
        visit_rules(&mut walk, grammar, &early, symbol, steps)?;
        done += 1;
    }
    Ok(walk)
}
