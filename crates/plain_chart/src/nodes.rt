//! The nodes of the forest.
ghost use Rattle.std.specs.Prelude.{◌≡◌, ◌↔◌, ◌<◌, ◌≤◌, IfOk, Contains, length};
ghost use Rattle.std.specs.List.Sorted.{IsStrictlySortedBy};
ghost use Rattle.forest.specs.Derivation.{IsSentence, AreTerminals};
ghost use Rattle.forest.specs.Forests.{IsForestOf};
ghost use Rattle.plain_chart.specs.declared.spans.Span.{Span};
ghost use Rattle.plain_chart.specs.Known.{IsWhole};
ghost use Rattle.plain_chart.specs.Nodes.{chart_span_cmp, IsNodeAt, AreNodes};
ghost use Rattle.plain_chart.specs.declared.limits.TheConstants.{PLACES};

use crate::cuts::splits_of;
use crate::reach::reached_spans;
use crate::spans::{Span, Spans};
use forest::{Forest, Node, Nodes, Rules, Splits, SymbolId};
use std::alloc::{AllocError, Global};

/// The spans in the order of the nodes of a forest, each once.
fn sorted_spans(spans: Spans) -> Result<Vec<Span>, AllocError>
    ensures ordered { IfOk result (λ v. IsStrictlySortedBy chart_span_cmp v.items) }
    ensures same { IfOk result (λ v. (s : Span) → Contains v.items s ↔ Contains spans s) }
{
    let mut items = spans.into_vec();
    items.sort()?;
    items.dedup();
    Ok(items)
}

/// The node of a span, with all its splits.
fn node_of(
    alloc: Global,
    known: &Spans,
    rules: &Rules,
    tokens: &[SymbolId],
    span: Span,
) -> Result<Node, AllocError>
    requires few { length tokens.now < PLACES }
    requires whole { IsWhole rules.now.rules tokens.now known.now }
    requires within { (span.from ≤ length tokens.now) × (span.to ≤ length tokens.now) }
    ensures { IfOk result (IsNodeAt rules.now.rules tokens.now span) }
{
    let splits = splits_of(alloc, known, rules, tokens, span)?;
    Ok(Node {
        symbol: span.symbol,
        from: span.from,
        to: span.to,
        splits: Splits::from_vec(splits),
    })
}

/// The nodes of the spans, one for each.
fn nodes_of(
    alloc: Global,
    known: &Spans,
    rules: &Rules,
    tokens: &[SymbolId],
    spans: &[Span],
) -> Result<Vec<Node>, AllocError>
    requires few { length tokens.now < PLACES }
    requires whole { IsWhole rules.now.rules tokens.now known.now }
    requires within { (s : Span) → Contains spans.now s → (s.from ≤ length tokens.now) × (s.to ≤ length tokens.now) }
    ensures { IfOk result (λ v. AreNodes rules.now.rules tokens.now spans.now v.items) }
{
    let mut nodes = Vec::with_capacity(alloc, spans.len())?;
    for span in spans {
        nodes.push(node_of(alloc, known, rules, tokens, *span)?)?;
    }
    Ok(nodes)
}

/// The forest of tokens that START derives.
pub fn forest_of(
    alloc: Global,
    known: &Spans,
    rules: &Rules,
    tokens: &[SymbolId],
) -> Result<Forest, AllocError>
    requires few { length tokens.now < PLACES }
    requires terminals { AreTerminals rules.now.rules tokens.now }
    requires whole { IsWhole rules.now.rules tokens.now known.now }
    requires sentence { IsSentence rules.now.rules tokens.now }
    ensures { IfOk result (IsForestOf rules.now.rules tokens.now) }
{
    let reached = reached_spans(alloc, known, rules.rules.as_slice(), tokens)?;
    let spans = sorted_spans(reached)?;
    let nodes = nodes_of(alloc, known, rules, tokens, spans.as_slice())?;
    Ok(Forest {
        nodes: Nodes::from_vec(nodes),
    })
}
