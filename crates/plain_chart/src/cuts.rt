//! The cuts of right sides, and the splits of spans.
ghost use Rattle.std.specs.Prelude.{◌≡◌, ◌+◌, ◌<◌, ◌≤◌, [], ◌∷◌, ◌++◌, map, IfOk, OnOk, length};
ghost use Rattle.plain_chart.specs.Cuts.{AreAllCuts, AreSplits, AddsSplits};
ghost use Rattle.plain_chart.specs.Known.{IsWhole};
ghost use Rattle.plain_chart.specs.declared.limits.TheConstants.{PLACES};

use crate::derive::{is_known, sources};
use crate::spans::{Span, Spans, is_same};
use forest::{Cuts, Rule, Rules, Split, SymbolId};
use std::alloc::{AllocError, Global};

/// The cuts with one more before them.
fn before(alloc: Global, from: u32, cuts: &Cuts) -> Result<Cuts, AllocError>
    ensures { IfOk result (λ p. p ≡ from ∷ cuts.now) }
{
    let mut items = Vec::new(alloc);
    items.push(from)?;
    items.extend_from_slice(cuts.as_slice())?;
    Ok(Cuts::from_vec(items))
}

/// Adds the cuts, each with one more before them.
fn add_before(
    alloc: Global,
    found: &mut Vec<Cuts>,
    from: u32,
    below: &[Cuts],
) -> Result<(), AllocError>
    ensures { IfOk result (λ _. found.new.items ≡ found.old.items ++ map (λ p. from ∷ p) below.now) }
{
    for cuts in below {
        found.push(before(alloc, from, cuts)?)?;
    }
    Ok(())
}

/// The cuts of no symbols.
fn end_cuts(
    alloc: Global,
    known: &Spans,
    tokens: &[SymbolId],
    from: u32,
    to: u32,
) -> Result<Vec<Cuts>, AllocError>
    ensures { IfOk result (λ v. AreAllCuts tokens.now known.now [] from to v.items) }
{
    let mut found = Vec::new(alloc);
    if from != to {
        return Ok(found);
    }
    let mut one = Vec::new(alloc);
    one.push(from)?;
    found.push(Cuts::from_vec(one))?;
    Ok(found)
}

/// The cuts of the symbols from one place to another, in ascending order.
fn cuts_of(
    alloc: Global,
    known: &Spans,
    tokens: &[SymbolId],
    right: &[SymbolId],
    from: u32,
    to: u32,
) -> Result<Vec<Cuts>, AllocError>
    requires few { length tokens.now < PLACES }
    requires begins { from < PLACES }
    requires ends { to < PLACES }
    ensures { IfOk result (λ v. AreAllCuts tokens.now known.now right.now from to v.items) }
{
    match right {
        [] => end_cuts(alloc, known, tokens, from, to),
        [first, rest @ ..] => {
            let ahead = sources(known, tokens, rest, to);
            let mut found = Vec::new(alloc);
            for middle in from..to + 1 {
                if ahead[middle as usize] && is_known(known, tokens, *first, from, middle) {
                    let below = cuts_of(alloc, known, tokens, rest, middle, to)?;
                    add_before(alloc, &mut found, from, below.as_slice())?;
                }
            }
            Ok(found)
        }
    }
}

/// Adds the splits of the span that the rule has.
fn add_splits(
    alloc: Global,
    found: &mut Vec<Split>,
    known: &Spans,
    tokens: &[SymbolId],
    rule: &Rule,
    span: Span,
) -> Result<(), AllocError>
    requires few { length tokens.now < PLACES }
    requires begins { span.from < PLACES }
    requires ends { span.to < PLACES }
    ensures { OnOk result (AddsSplits tokens.now known.now rule.now span found.old.items found.new.items) }
{
    let cuts = cuts_of(
        alloc,
        known,
        tokens,
        rule.right.as_slice(),
        span.from,
        span.to,
    )?;
    for cuts in cuts {
        found.push(Split {
            rule: rule.number,
            cuts,
        })?;
    }
    Ok(())
}

/// The splits of the span, in order.
pub fn splits_of(
    alloc: Global,
    known: &Spans,
    rules: &Rules,
    tokens: &[SymbolId],
    span: Span,
) -> Result<Vec<Split>, AllocError>
    requires few { length tokens.now < PLACES }
    requires whole { IsWhole rules.now.rules tokens.now known.now }
    requires within { (span.from ≤ length tokens.now) × (span.to ≤ length tokens.now) }
    ensures { IfOk result (λ v. AreSplits rules.now.rules tokens.now span v.items) }
{
    let mut found = Vec::new(alloc);
    for rule in rules.rules.as_slice() {
        if is_same(rule.left, span.symbol) {
            add_splits(alloc, &mut found, known, tokens, rule, span)?;
        }
    }
    Ok(found)
}
