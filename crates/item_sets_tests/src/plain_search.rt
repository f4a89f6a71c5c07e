//! A plain, slow search for what a kernel expands to: it tries every rule at every item.

use crate::telling::{tell_ends, tell_move, tell_number};
use edit_log::Grammar;
use forest::{Rule, RuleId, START, SymbolId};
use item_sets::{Item, Kernel};
use std::alloc::{AllocError, Global};

/// No closure that is searched has more items.
const MOST_ITEMS: usize = 1000;

/// The symbol after the item's dot.
fn symbol_after(rules: &[Rule], item: Item) -> Option<SymbolId> {
    if item.rule == RuleId(0) {
        return if item.dot == 0 { Some(START) } else { None };
    }
    for rule in rules {
        if rule.number == item.rule {
            return rule.right.as_slice().get(item.dot as usize).copied();
        }
    }
    None
}

/// Adds the rules of what stands after the item's dot: a chain may go on with each of them.
fn add_rules(items: &mut Vec<Item>, rules: &[Rule], item: Item) -> Result<(), AllocError> {
    let next = symbol_after(rules, item);
    for rule in rules {
        let added = Item {
            rule: rule.number,
            dot: 0,
        };
        if next == Some(rule.left) && !items.contains(&added) {
            items.push(added)?;
        }
    }
    Ok(())
}

/// The items of the closure.
fn closed(alloc: Global, rules: &[Rule], kernel: &[Item]) -> Result<Vec<Item>, AllocError> {
    let mut items = kernel.to_vec(alloc)?;
    for at in 0..MOST_ITEMS {
        if at < items.len() {
            let item = items[at];
            add_rules(&mut items, rules, item)?;
        }
    }
    Ok(items)
}

/// The items of the move on the symbol: none, where there is no move.
fn moved(
    alloc: Global,
    rules: &[Rule],
    items: &[Item],
    symbol: SymbolId,
) -> Result<Vec<Item>, AllocError> {
    let mut upper = Vec::new(alloc);
    for item in items {
        if symbol_after(rules, *item) == Some(symbol) {
            upper.push(Item {
                rule: item.rule,
                dot: item.dot.wrapping_add(1),
            })?;
        }
    }
    upper.sort_unstable();
    Ok(upper)
}

/// The rules with nothing after the dot.
fn ended(alloc: Global, rules: &[Rule], items: &[Item]) -> Result<Vec<RuleId>, AllocError> {
    let mut numbers = Vec::new(alloc);
    for item in items {
        if symbol_after(rules, *item).is_none() {
            numbers.push(item.rule)?;
        }
    }
    numbers.sort_unstable();
    Ok(numbers)
}

/// Tells what is found of the moves, and then of the symbols that they are on.
fn tell_moves(
    alloc: Global,
    told: &mut String,
    rules: &[Rule],
    items: &[Item],
    symbols: u32,
) -> Result<(), AllocError> {
    let mut on = String::new(alloc);
    for number in 0..symbols {
        let upper = moved(alloc, rules, items, SymbolId(number))?;
        if !upper.is_empty() {
            tell_move(told, SymbolId(number), &upper)?;
            tell_number(&mut on, number)?;
        }
    }
    told.push_str(" on")?;
    told.push_str(&on)
}

fn rules_of(grammar: &Grammar) -> &[Rule] {
    grammar.rules().rules.as_slice()
}

fn symbols_of(grammar: &Grammar) -> u32 {
    grammar.symbols()
}

/// What is found, as it is told of an expansion, and how many items the closure has.
pub(crate) fn searched(
    alloc: Global,
    grammar: &Grammar,
    kernel: &Kernel,
) -> Result<(String, usize), AllocError> {
    let rules = rules_of(grammar);
    let items = closed(alloc, rules, kernel.items())?;
    let mut told = String::new(alloc);
    tell_moves(alloc, &mut told, rules, &items, symbols_of(grammar))?;
    tell_ends(&mut told, &ended(alloc, rules, &items)?)?;
    Ok((told, items.len()))
}
