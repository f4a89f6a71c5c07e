//! The spans that rules derive, by a fixpoint.
ghost use Rattle.std.specs.Prelude.{◌≡◌, ℕ, ◌+◌, ◌<◌, ◌≤◌, ◌↔◌, IsTrue, IsFalse, length, IfOk, Contains, slice_get, Some, true};
ghost use Rattle.forest.specs.declared.symbols.SymbolId.{SymbolId};
ghost use Rattle.forest.specs.declared.rules.Rule.{Rule};
ghost use Rattle.plain_chart.specs.Known.{IsKnownToDerive, AreKnown, AreFine, AreSettled, ExtendsKnown, IsSettled, IsWhole, ReachesAhead, AreLeads, AreSources};
ghost use Rattle.plain_chart.specs.declared.limits.TheConstants.{PLACES};

use crate::limits::PLACES;
use crate::spans::{Spans, is_same};
use forest::{Rule, SymbolId};
use std::alloc::{AllocError, Global};

/// Whether the span is that of a token.
fn is_token(tokens: &[SymbolId], symbol: SymbolId, from: u32, to: u32) -> bool
    requires { length tokens.now < PLACES }
    ensures { IsTrue result ↔ ((slice_get tokens.now from ≡ Some symbol) × (to ≡ from + 1)) }
{
    match tokens.get(from as usize) {
        Some(kind) => is_same(*kind, symbol) && to == from + 1,
        None => false,
    }
}

/// Whether the span is that of a token, or is among those that are known.
pub fn is_known(known: &Spans, tokens: &[SymbolId], symbol: SymbolId, from: u32, to: u32) -> bool
    requires few { length tokens.now < PLACES }
    requires begins { from < PLACES }
    requires ends { to < PLACES }
    ensures { IsTrue result ↔ IsKnownToDerive tokens.now known.now symbol from to }
{
    is_token(tokens, symbol, from, to) || known.has(symbol, from, to)
}

/// Whether the symbol leads from a place to one of the places ahead, up to `to`.
fn leads(
    known: &Spans,
    tokens: &[SymbolId],
    symbol: SymbolId,
    from: u32,
    ahead: &[bool; PLACES],
    to: u32,
) -> bool
    requires few { length tokens.now < PLACES }
    requires begins { from < PLACES }
    requires ends { to < PLACES }
    ensures { IsTrue result ↔ ReachesAhead tokens.now known.now symbol from ahead.now to }
{
    for middle in from..to + 1 {
        if ahead[middle as usize] && is_known(known, tokens, symbol, from, middle) {
            return true;
        }
    }
    false
}

/// The places from which the symbol leads to one of the places ahead.
fn places_before(
    known: &Spans,
    tokens: &[SymbolId],
    symbol: SymbolId,
    ahead: &[bool; PLACES],
    to: u32,
) -> [bool; PLACES]
    requires few { length tokens.now < PLACES }
    requires ends { to < PLACES }
    ensures { AreLeads tokens.now known.now symbol ahead.now to result }
{
    let mut places = [false; PLACES];
    for from in 0..to + 1 {
        places[from as usize] = leads(known, tokens, symbol, from, ahead, to);
    }
    places
}

/// This place alone.
fn one_place(to: u32) -> [bool; PLACES]
    requires { to < PLACES }
    ensures { (i : ℕ) → i < PLACES → (slice_get result i ≡ Some true) ↔ (i ≡ to) }
{
    let mut places = [false; PLACES];
    places[to as usize] = true;
    places
}

/// The places from which the symbols, one after the other, are known to derive the tokens up to `to`.
pub fn sources(known: &Spans, tokens: &[SymbolId], right: &[SymbolId], to: u32) -> [bool; PLACES]
    requires few { length tokens.now < PLACES }
    requires ends { to < PLACES }
    ensures { AreSources tokens.now known.now right.now to result }
{
    match right {
        [] => one_place(to),
        [first, rest @ ..] => {
            let ahead = sources(known, tokens, rest, to);
            places_before(known, tokens, *first, &ahead, to)
        }
    }
}

/// Adds the spans of the rule up to `to` that are derived from what is known, and tells whether there
/// was one that was not known itself.
fn settle(
    alloc: Global,
    known: &mut Spans,
    rules: &[Rule],
    at: usize,
    tokens: &[SymbolId],
    to: u32,
) -> Result<bool, AllocError>
    requires few { length tokens.now < PLACES }
    requires at { at < length rules.now }
    requires ends { to ≤ length tokens.now }
    requires fine { AreFine rules.now tokens.now known.old }
    ensures grows { IfOk result (λ yes. ExtendsKnown rules.now tokens.now known.old known.new yes) }
    ensures settled { IfOk result (λ yes. IsFalse yes → (r : Rule) (i : ℕ) → slice_get rules.now at ≡ Some r → IsSettled tokens.now known.new r i to) }
{
    let rule = &rules[at];
    let ahead = sources(known, tokens, rule.right.as_slice(), to);
    let mut changed = false;
    for from in 0..to + 1 {
        if ahead[from as usize] && !known.has(rule.left, from, to) {
            known.insert(alloc, rule.left, from, to)?;
            changed = true;
        }
    }
    Ok(changed)
}

/// Settles the rule for each end, and tells whether a span was added.
fn settle_rule(
    alloc: Global,
    known: &mut Spans,
    rules: &[Rule],
    at: usize,
    tokens: &[SymbolId],
) -> Result<bool, AllocError>
    requires few { length tokens.now < PLACES }
    requires at { at < length rules.now }
    requires fine { AreFine rules.now tokens.now known.old }
    ensures grows { IfOk result (λ yes. ExtendsKnown rules.now tokens.now known.old known.new yes) }
    ensures settled { IfOk result (λ yes. IsFalse yes → (r : Rule) (i j : ℕ) → slice_get rules.now at ≡ Some r
        → j ≤ length tokens.now → IsSettled tokens.now known.new r i j) }
{
    let mut changed = false;
    for to in 0..tokens.len() as u32 + 1 {
        changed |= settle(alloc, known, rules, at, tokens, to)?;
    }
    Ok(changed)
}

/// Goes over all rules and spans once, and tells whether a span was added.
fn round(
    alloc: Global,
    known: &mut Spans,
    rules: &[Rule],
    tokens: &[SymbolId],
) -> Result<bool, AllocError>
    requires few { length tokens.now < PLACES }
    requires fine { AreFine rules.now tokens.now known.old }
    ensures grows { IfOk result (λ yes. ExtendsKnown rules.now tokens.now known.old known.new yes) }
    ensures settled { IfOk result (λ yes. IsFalse yes → AreSettled rules.now tokens.now known.new) }
{
    let mut changed = false;
    for at in 0..rules.len() {
        changed |= settle_rule(alloc, known, rules, at, tokens)?;
    }
    Ok(changed)
}

/// The spans that the rules derive.
pub fn derived_spans(
    alloc: Global,
    rules: &[Rule],
    tokens: &[SymbolId],
) -> Result<Spans, AllocError>
    requires { length tokens.now < PLACES }
    ensures { IfOk result (IsWhole rules.now tokens.now) }
{
    let mut known = Spans::new(alloc);
    while round(alloc, &mut known, rules, tokens)? {}
    Ok(known)
}
