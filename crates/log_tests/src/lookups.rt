//! What a grammar finds.

use crate::answers::{
    count_symbols, kind_of, live_of, name_of, number_of, positions_of, rule_of, rules_of,
};
use crate::telling::{definition_in, number_in, tell, tell_definitions, tell_known};
use edit_log::{DefKind, Grammar};
use forest::{Rule, RuleId};
use grammar_text::{Symbol, Text};
use regex_ast::Positions;
use std::alloc::{AllocError, Global};

/// A rule in numbers: its own, that of its left side, and those of its right side.
fn tell_rule(alloc: Global, told: &mut String, rule: &Rule) -> Result<(), AllocError> {
    tell(alloc, told, " ", rule.number.0)?;
    tell(alloc, told, " ", rule.left.0)?;
    for symbol in rule.right.as_slice() {
        tell(alloc, told, " ", symbol.0)?;
    }
    Ok(())
}

/// The rule with the number.
pub(crate) fn told_rule(
    alloc: Global,
    grammar: &Grammar,
    number: &str,
) -> Result<String, AllocError> {
    let mut told = String::new(alloc);
    match rule_of(grammar, number_in(number)) {
        Some(rule) => tell_rule(alloc, &mut told, rule)?,
        None => told.push_str(" unknown")?,
    }
    Ok(told)
}

fn tell_numbers(alloc: Global, told: &mut String, numbers: &[RuleId]) -> Result<(), AllocError> {
    for number in numbers {
        tell(alloc, told, " ", number.0)?;
    }
    Ok(())
}

/// The numbers of the rules with the left side of this number.
pub(crate) fn told_under(
    alloc: Global,
    grammar: &Grammar,
    left: &str,
) -> Result<String, AllocError> {
    let mut told = String::new(alloc);
    tell_numbers(alloc, &mut told, rules_of(grammar, number_in(left)))?;
    Ok(told)
}

fn tell_bytes(told: &mut String, bytes: &[u8]) -> Result<(), AllocError> {
    match std::str::from_utf8(bytes) {
        Ok(text) => told.push_str(text),
        Err(_) => told.push_str("?"),
    }
}

/// Adds the symbol: a literal in quotes.
fn tell_symbol(told: &mut String, symbol: &Symbol) -> Result<(), AllocError> {
    match symbol {
        Symbol::Named(name) => tell_bytes(told, name.bytes()),
        Symbol::Literal(text) => {
            told.push_str("\"")?;
            tell_bytes(told, text.bytes())?;
            told.push_str("\"")
        }
    }
}

/// Adds the name of the symbol with the number.
fn tell_name(told: &mut String, grammar: &Grammar, number: u32) -> Result<(), AllocError> {
    told.push_str(" ")?;
    match name_of(grammar, number) {
        Some(symbol) => tell_symbol(told, symbol),
        None => told.push_str("unknown"),
    }
}

/// The names of all symbols.
pub(crate) fn told_names(alloc: Global, grammar: &Grammar) -> Result<String, AllocError> {
    let mut told = String::new(alloc);
    for number in 0..count_symbols(grammar) {
        tell_name(&mut told, grammar, number)?;
    }
    Ok(told)
}

/// Adds the number that is found by the name of the symbol with the number.
fn tell_again(
    alloc: Global,
    told: &mut String,
    grammar: &Grammar,
    number: u32,
) -> Result<(), AllocError> {
    match name_of(grammar, number) {
        Some(symbol) => tell_known(alloc, told, number_of(grammar, symbol)),
        None => told.push_str(" unknown"),
    }
}

/// The numbers of all symbols, each found by its name.
pub(crate) fn told_numbers(alloc: Global, grammar: &Grammar) -> Result<String, AllocError> {
    let mut told = String::new(alloc);
    for number in 0..count_symbols(grammar) {
        tell_again(alloc, &mut told, grammar, number)?;
    }
    Ok(told)
}

/// The number of the literal with these bytes.
pub(crate) fn told_literal(
    alloc: Global,
    grammar: &Grammar,
    bytes: &str,
) -> Result<String, AllocError> {
    let literal = Symbol::Literal(Text::from_vec(Vec::from_slice(alloc, bytes.as_bytes())?));
    let mut told = String::new(alloc);
    tell_known(alloc, &mut told, number_of(grammar, &literal))?;
    Ok(told)
}

/// The live definitions in their order.
pub(crate) fn told_live(alloc: Global, grammar: &Grammar) -> Result<String, AllocError> {
    let mut told = String::new(alloc);
    tell_definitions(alloc, &mut told, live_of(grammar))?;
    Ok(told)
}

fn tell_kind(alloc: Global, told: &mut String, kind: Option<DefKind>) -> Result<(), AllocError> {
    match kind {
        Some(DefKind::Token(symbol)) => tell(alloc, told, " token ", symbol.0),
        Some(DefKind::Skip) => told.push_str(" skip"),
        None => told.push_str(" unknown"),
    }
}

/// What the definition is.
pub(crate) fn told_kind(
    alloc: Global,
    grammar: &Grammar,
    definition: &str,
) -> Result<String, AllocError> {
    let mut told = String::new(alloc);
    tell_kind(
        alloc,
        &mut told,
        kind_of(grammar, definition_in(definition)),
    )?;
    Ok(told)
}

fn count_positions(positions: Option<&Positions>) -> Option<u32> {
    Some(positions?.count())
}

/// How many positions the definition has.
pub(crate) fn told_positions(
    alloc: Global,
    grammar: &Grammar,
    definition: &str,
) -> Result<String, AllocError> {
    let mut told = String::new(alloc);
    match count_positions(positions_of(grammar, definition_in(definition))) {
        Some(count) => tell(alloc, &mut told, " ", count)?,
        None => told.push_str(" unknown")?,
    }
    Ok(told)
}
