//! Rules and texts, written as short rows.

use forest::{Rule, RuleId, RuleList, Rules, SymbolId, Symbols, is_ascending};
use std::alloc::{AllocError, Global};

/// Rules, and the kinds of a text's tokens.
#[derive(Drop)]
pub(crate) struct Case {
    /// The rules of the row, with the numbers that are written there.
    pub(crate) rules: Rules,
    /// The kind of each token of the text, from left to right.
    pub(crate) tokens: Vec<SymbolId>,
}

/// The number that a digit stands for.
fn digit(byte: u8) -> u32 {
    u32::from(byte.wrapping_sub(b'0'))
}

/// The symbols whose numbers are these digits.
fn symbols_of(alloc: Global, digits: &[u8]) -> Result<Vec<SymbolId>, AllocError> {
    let mut symbols = Vec::new(alloc);
    for byte in digits {
        symbols.push(SymbolId(digit(*byte)))?;
    }
    Ok(symbols)
}

/// A rule as it is written: its number, its left side and its right side, as `2:1=121`.
fn rule_of(alloc: Global, written: &str) -> Result<Option<Rule>, AllocError> {
    let [number, _, left, _, right @ ..] = written.as_bytes() else {
        return Ok(None);
    };
    Ok(Some(Rule {
        number: RuleId(digit(*number)),
        left: SymbolId(digit(*left)),
        right: Symbols::from_vec(symbols_of(alloc, right)?),
    }))
}

/// The rules, which blanks part, if each is one.
fn list_of(alloc: Global, written: &str) -> Result<Option<RuleList>, AllocError> {
    let mut list = Vec::new(alloc);
    for word in written.split_whitespace() {
        match rule_of(alloc, word)? {
            Some(rule) => list.push(rule)?,
            None => return Ok(None),
        }
    }
    Ok(Some(RuleList::from_vec(list)))
}

/// The rules, if their numbers ascend.
fn ascending(list: RuleList) -> Option<Rules> {
    if !is_ascending(list.as_slice()) {
        return None;
    }
    Some(Rules { rules: list })
}

/// The case of a row: rules whose numbers ascend, a bar, and a digit for each token.
pub(crate) fn case_of(alloc: Global, row: &str) -> Result<Option<Case>, AllocError> {
    let Some((rules, tokens)) = row.split_once('/') else {
        return Ok(None);
    };
    let Some(list) = list_of(alloc, rules)? else {
        return Ok(None);
    };
    let Some(rules) = ascending(list) else {
        return Ok(None);
    };
    let tokens = symbols_of(alloc, tokens.as_bytes())?;
    Ok(Some(Case { rules, tokens }))
}
