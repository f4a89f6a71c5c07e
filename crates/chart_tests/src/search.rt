//! A forest by a search over all cuts: slow, and as plain as can be.

ghost use Rattle.std.specs.Prelude.{◌≤◌};

use forest::{Rule, SymbolId};
use std::alloc::{AllocError, Global};

/// The longest text that is searched.
const LONGEST: u32 = 9;

/// A span, in the order of a forest's nodes.
#[derive(Clone, Copy, PartialEq, Eq, PartialOrd, Ord)]
struct Span {
    /// The place between tokens where it begins, from 0 on.
    from: u32,
    /// The place between tokens where it ends, which is `from` where it has no token.
    to: u32,
    /// The number of its symbol.
    symbol: u32,
}

/// All cuts of so many parts, whatever they derive, in order.
fn all_cuts(
    alloc: Global,
    parts: &[SymbolId],
    from: u32,
    to: u32,
) -> Result<Vec<Vec<u32>>, AllocError>
    requires { to ≤ LONGEST }
{
    let mut found = Vec::new(alloc);
    match parts {
        [] => {
            if from == to {
                found.push(Vec::from_array(alloc, [from])?)?;
            }
        }
        [_, rest @ ..] => {
            for middle in from..to + 1 {
                let behind = all_cuts(alloc, rest, middle, to)?;
                add_with_first(alloc, &mut found, from, &behind)?;
            }
        }
    }
    Ok(found)
}

/// Adds each of these cuts with one more in front.
fn add_with_first(
    alloc: Global,
    found: &mut Vec<Vec<u32>>,
    first: u32,
    behind: &[Vec<u32>],
) -> Result<(), AllocError> {
    for rest in behind {
        let mut cuts = Vec::from_array(alloc, [first])?;
        cuts.extend_from_slice(rest)?;
        found.push(cuts)?;
    }
    Ok(())
}

/// Whether the span is a token or is among those that are derived.
fn is_derived(derived: &[Span], tokens: &[SymbolId], span: Span) -> bool {
    if tokens.get(span.from as usize) == Some(&SymbolId(span.symbol))
        && span.to.checked_sub(1) == Some(span.from)
    {
        return true;
    }
    derived.contains(&span)
}

/// The spans of the parts along the cuts.
fn parts_along(alloc: Global, right: &[SymbolId], cuts: &[u32]) -> Result<Vec<Span>, AllocError> {
    let mut spans = Vec::new(alloc);
    let mut from = cuts.first().copied().unwrap_or(0);
    for (symbol, to) in right.iter().zip(cuts.iter().skip(1)) {
        spans.push(Span {
            from,
            to: *to,
            symbol: symbol.0,
        })?;
        from = *to;
    }
    Ok(spans)
}

/// Whether all parts along the cuts are derived.
fn is_split(
    alloc: Global,
    derived: &[Span],
    tokens: &[SymbolId],
    right: &[SymbolId],
    cuts: &[u32],
) -> Result<bool, AllocError> {
    for part in &parts_along(alloc, right, cuts)? {
        if !is_derived(derived, tokens, *part) {
            return Ok(false);
        }
    }
    Ok(true)
}

/// The cuts of the rule's splits from one place to another.
fn splits_of(
    alloc: Global,
    derived: &[Span],
    tokens: &[SymbolId],
    rule: &Rule,
    from: u32,
    to: u32,
) -> Result<Vec<Vec<u32>>, AllocError>
    requires { to ≤ LONGEST }
{
    let right = rule.right.as_slice();
    let mut splits = Vec::new(alloc);
    for cuts in all_cuts(alloc, right, from, to)? {
        if is_split(alloc, derived, tokens, right, &cuts)? {
            splits.push(cuts)?;
        }
    }
    Ok(splits)
}

/// Adds the spans of the rule that end at a place, as far as the parts are derived already.
fn derive_ends(
    alloc: Global,
    derived: &mut Vec<Span>,
    tokens: &[SymbolId],
    rule: &Rule,
    to: u32,
) -> Result<(), AllocError>
    requires { to ≤ LONGEST }
{
    for from in 0..to + 1 {
        let span = Span {
            from,
            to,
            symbol: rule.left.0,
        };
        let splits = splits_of(alloc, derived, tokens, rule, from, to)?;
        if !splits.is_empty() && !derived.contains(&span) {
            derived.push(span)?;
        }
    }
    Ok(())
}

/// Adds the spans of the rule, as far as the parts are derived already.
fn derive_rule(
    alloc: Global,
    derived: &mut Vec<Span>,
    tokens: &[SymbolId],
    rule: &Rule,
    last: u32,
) -> Result<(), AllocError>
    requires { last ≤ LONGEST }
{
    for to in 0..last + 1 {
        derive_ends(alloc, derived, tokens, rule, to)?;
    }
    Ok(())
}

/// All spans that the rules derive: each rule in turn, over and over.
fn derived_spans(
    alloc: Global,
    rules: &[Rule],
    tokens: &[SymbolId],
    last: u32,
) -> Result<Vec<Span>, AllocError>
    requires { last ≤ LONGEST }
{
    let mut derived = Vec::new(alloc);
    for _ in 0..12 {
        for rule in rules {
            derive_rule(alloc, &mut derived, tokens, rule, last)?;
        }
    }
    Ok(derived)
}

/// Whether the symbol is the left side of a rule.
fn is_left(rules: &[Rule], symbol: u32) -> bool {
    for rule in rules {
        if rule.left.0 == symbol {
            return true;
        }
    }
    false
}

/// Adds the nonterminal parts along the cuts to the spans that are reached.
fn reach_parts(
    alloc: Global,
    reached: &mut Vec<Span>,
    rules: &[Rule],
    right: &[SymbolId],
    cuts: &[u32],
) -> Result<(), AllocError> {
    for part in parts_along(alloc, right, cuts)? {
        if is_left(rules, part.symbol) && !reached.contains(&part) {
            reached.push(part)?;
        }
    }
    Ok(())
}

/// The splits of a span as text, with their nonterminal parts added to the spans that are reached.
fn told_splits(
    alloc: Global,
    reached: &mut Vec<Span>,
    derived: &[Span],
    rules: &[Rule],
    tokens: &[SymbolId],
    span: Span,
) -> Result<String, AllocError> {
    let mut told = String::new(alloc);
    if span.to > LONGEST {
        return Ok(told);
    }
    for rule in rules {
        if rule.left.0 != span.symbol {
            continue;
        }
        for cuts in splits_of(alloc, derived, tokens, rule, span.from, span.to)? {
            reach_parts(alloc, reached, rules, rule.right.as_slice(), &cuts)?;
            told.push_str(&format!(in alloc; " {}@{cuts:?}", rule.number.0)?)?;
        }
    }
    Ok(told)
}

/// The spans that the forest has.
fn reached_spans(
    alloc: Global,
    derived: &[Span],
    rules: &[Rule],
    tokens: &[SymbolId],
    last: u32,
) -> Result<Vec<Span>, AllocError> {
    let mut reached = Vec::new(alloc);
    reached.push(Span {
        from: 0,
        to: last,
        symbol: 0,
    })?;
    for at in 0..99 {
        if at >= reached.len() {
            break;
        }
        let span = reached[at];
        told_splits(alloc, &mut reached, derived, rules, tokens, span)?;
    }
    reached.sort_unstable();
    Ok(reached)
}

/// What is told of the forest of the tokens: each node as its symbol, its ends and its splits.
pub(crate) fn found_by_search(
    alloc: Global,
    rules: &[Rule],
    tokens: &[SymbolId],
) -> Result<String, AllocError> {
    let last = tokens.len().min(LONGEST as usize) as u32;
    let derived = derived_spans(alloc, rules, tokens, last)?;
    let whole = Span {
        from: 0,
        to: last,
        symbol: 0,
    };
    if !is_derived(&derived, tokens, whole) {
        return format!(in alloc; "none");
    }
    let mut told = String::new(alloc);
    let mut none = Vec::new(alloc);
    for span in reached_spans(alloc, &derived, rules, tokens, last)? {
        told.push_str(&format!(in alloc; "{} {}-{}:", span.symbol, span.from, span.to)?)?;
        told.push_str(&told_splits(alloc, &mut none, &derived, rules, tokens, span)?)?;
        told.push_str("; ")?;
    }
    Ok(told)
}
