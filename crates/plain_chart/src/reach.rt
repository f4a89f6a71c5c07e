//! The spans of the forest.
ghost use Rattle.std.specs.Prelude.{◌≡◌, ◌<◌, ◌≤◌, IfOk, OnOk, length};
ghost use Rattle.forest.specs.declared.symbols.TheConstants.{START};
ghost use Rattle.forest.specs.Derivation.{IsSentence, AreTerminals};
ghost use Rattle.plain_chart.specs.declared.spans.Span.{Span};
ghost use Rattle.plain_chart.specs.Span.{span as span_at};
ghost use Rattle.plain_chart.specs.Known.{IsWhole};
ghost use Rattle.plain_chart.specs.Parts.{IsPartSpan, IsPartOfSpan, Adds, AreReached};
ghost use Rattle.plain_chart.specs.declared.limits.TheConstants.{PLACES};

use crate::derive::{is_known, sources};
use crate::spans::{Span, Spans, is_same};
use forest::{Rule, START, SymbolId};
use std::alloc::{AllocError, Global};

/// Adds the span where it is known, so is no token's, and has not come yet.
fn add_part(
    alloc: Global,
    reached: &mut Spans,
    known: &Spans,
    symbol: SymbolId,
    from: u32,
    to: u32,
) -> Result<(), AllocError>
    requires begins { from < PLACES }
    requires ends { to < PLACES }
    ensures { OnOk result (Adds known.now (λ (s : Span). span_at symbol from to ≡ s) reached.old reached.new) }
{
    if known.has(symbol, from, to) && !reached.has(symbol, from, to) {
        reached.insert(alloc, symbol, from, to)?;
    }
    Ok(())
}

/// Adds the parts of the symbols from one place to another, along all their cuts.
fn add_parts(
    alloc: Global,
    reached: &mut Spans,
    known: &Spans,
    tokens: &[SymbolId],
    right: &[SymbolId],
    from: u32,
    to: u32,
) -> Result<(), AllocError>
    requires few { length tokens.now < PLACES }
    requires begins { from < PLACES }
    requires ends { to < PLACES }
    ensures { OnOk result (Adds known.now (IsPartSpan tokens.now known.now right.now from to) reached.old reached.new) }
{
    match right {
        [] => Ok(()),
        [first, rest @ ..] => {
            let ahead = sources(known, tokens, rest, to);
            for middle in from..to + 1 {
                if ahead[middle as usize] && is_known(known, tokens, *first, from, middle) {
                    add_part(alloc, reached, known, *first, from, middle)?;
                    add_parts(alloc, reached, known, tokens, rest, middle, to)?;
                }
            }
            Ok(())
        }
    }
}

/// Adds the parts of the splits of a span.
fn add_below(
    alloc: Global,
    reached: &mut Spans,
    known: &Spans,
    rules: &[Rule],
    tokens: &[SymbolId],
    span: Span,
) -> Result<(), AllocError>
    requires few { length tokens.now < PLACES }
    requires begins { span.from < PLACES }
    requires ends { span.to < PLACES }
    ensures { OnOk result (Adds known.now (IsPartOfSpan rules.now tokens.now known.now span) reached.old reached.new) }
{
    for rule in rules {
        if is_same(rule.left, span.symbol) {
            add_parts(
                alloc,
                reached,
                known,
                tokens,
                rule.right.as_slice(),
                span.from,
                span.to,
            )?;
        }
    }
    Ok(())
}

/// The spans of the forest, each once.
pub fn reached_spans(
    alloc: Global,
    known: &Spans,
    rules: &[Rule],
    tokens: &[SymbolId],
) -> Result<Spans, AllocError>
    requires few { length tokens.now < PLACES }
    requires terminals { AreTerminals rules.now tokens.now }
    requires whole { IsWhole rules.now tokens.now known.now }
    ensures { IfOk result (AreReached rules.now tokens.now) }
{
    let mut reached = Spans::new(alloc);
    reached.insert(alloc, START, 0, tokens.len() as u32)?;
    let mut at = 0;
    while at < reached.len() {
        let span = reached.at(at);
        add_below(alloc, &mut reached, known, rules, tokens, span)?;
        at += 1;
    }
    Ok(reached)
}
