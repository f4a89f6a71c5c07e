//! Expansions as text.

use forest::{RuleId, SymbolId};
use item_sets::{Expansion, Item, has_move};
use std::alloc::{AllocError, Global};

pub(crate) fn tell_number(told: &mut String, number: u32) -> Result<(), AllocError> {
    let digits = format!(in *told.allocator(); " {number}")?;
    told.push_str(&digits)
}

fn tell_item(told: &mut String, item: &Item) -> Result<(), AllocError> {
    let text = format!(in *told.allocator(); " {}.{}", item.rule.0, item.dot)?;
    told.push_str(&text)
}

/// A move: its symbol, and behind an arrow the items, each as its rule and its dot.
pub(crate) fn tell_move(
    told: &mut String,
    symbol: SymbolId,
    items: &[Item],
) -> Result<(), AllocError> {
    tell_number(told, symbol.0)?;
    told.push_str(" >")?;
    for item in items {
        tell_item(told, item)?;
    }
    told.push_str(",")
}

/// The rules that are finished.
pub(crate) fn tell_ends(told: &mut String, numbers: &[RuleId]) -> Result<(), AllocError> {
    told.push_str(", ends")?;
    for number in numbers {
        tell_number(told, number.0)?;
    }
    Ok(())
}

fn tell_symbols(told: &mut String, expansion: &Expansion, symbols: u32) -> Result<(), AllocError> {
    told.push_str(" on")?;
    for number in 0..symbols {
        if has_move(expansion, SymbolId(number)) {
            tell_number(told, number)?;
        }
    }
    Ok(())
}

/// The moves, the symbols that they are on, and the reductions.
pub(crate) fn told(
    alloc: Global,
    expansion: &Expansion,
    symbols: u32,
) -> Result<String, AllocError> {
    let mut told = String::new(alloc);
    for (symbol, kernel) in expansion.moves.as_slice() {
        tell_move(&mut told, *symbol, kernel.items())?;
    }
    tell_symbols(&mut told, expansion, symbols)?;
    tell_ends(&mut told, expansion.reductions.as_slice())?;
    Ok(told)
}
