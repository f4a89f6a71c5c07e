//! What the parser and the chart answer.

ghost use Rattle.std.specs.Prelude.{◌≡◌, ◌≤◌, IfOk, IsTrue, length};
ghost use Rattle.edit_log.specs.declared.limits.TheConstants.{TOKEN_LIMIT};
ghost use Rattle.forest.specs.Derivation.{AreTerminals};
ghost use Rattle.plain_chart.specs.declared.limits.TheConstants.{MOST_TOKENS};
ghost use Rattle.rekers.specs.Answers.{kinds_of};

use edit_log::TOKEN_LIMIT;
use forest::{Forest, SymbolId, Token};
use live_graph::Graph;
use plain_chart::{MOST_TOKENS, are_terminals, chart};
use rekers::{ParseError, Parsed, Parser};
use std::alloc::{AllocError, Global};
use std::sync::ledger::Ledger;
use steps::Steps;

/// What the parser answers, and the chart if it was asked.
#[derive(Drop)]
pub(crate) struct Answers {
    /// What the parser answers, which is never that memory ran out.
    pub(crate) parsed: Result<Parsed, ParseError>,
    /// None where there are more tokens than a chart takes.
    pub(crate) charted: Option<Option<Forest>>,
}

/// The kinds of the tokens.
fn kinds_of(alloc: Global, tokens: &[Token]) -> Result<Vec<SymbolId>, AllocError>
    ensures { IfOk result (λ kinds. kinds.items ≡ kinds_of tokens.now) }
{
    let mut kinds = Vec::with_capacity(alloc, tokens.len())?;
    for token in tokens {
        kinds.push(token.kind)?;
    }
    Ok(kinds)
}

/// Whether no token is the left side of a rule, as parser and chart ask.
fn may_ask<G: Graph>(graph: &G, kinds: &[SymbolId]) -> bool
    ensures { IsTrue result → AreTerminals (G.means graph.now).grammar.rules kinds.now }
{
    are_terminals(graph.grammar().rules(), kinds)
}

/// The chart's forest, if there are few tokens.
fn ask_chart<G: Graph>(
    alloc: Global,
    graph: &G,
    kinds: &[SymbolId],
) -> Result<Option<Option<Forest>>, AllocError>
    requires { AreTerminals (G.means graph.now).grammar.rules kinds.now }
{
    if kinds.len() > MOST_TOKENS {
        return Ok(None);
    }
    match chart(alloc, graph.grammar().rules(), kinds) {
        Ok(answer) => Ok(Some(answer)),
        Err(_) => Err(AllocError),
    }
}

/// The parser's answer. That memory ran out is no answer.
fn ask_parser<G: Graph, L: Ledger>(
    alloc: Global,
    parser: &mut Parser,
    graph: &mut G,
    tokens: &[Token],
    steps: &mut Steps<L>,
) -> Result<Result<Parsed, ParseError>, AllocError>
    requires few { length tokens.now ≤ TOKEN_LIMIT }
    requires terminals { AreTerminals (G.means graph.old).grammar.rules (kinds_of tokens.now) }
{
    match parser.parse(alloc, graph, tokens, steps) {
        Err(ParseError::NoMemory) => Err(AllocError),
        answer => Ok(answer),
    }
}

/// Both answers, or none where a token is the left side of a rule or there are too many.
pub(crate) fn answers_of<G: Graph, L: Ledger>(
    alloc: Global,
    parser: &mut Parser,
    graph: &mut G,
    tokens: &[Token],
    steps: &mut Steps<L>,
) -> Result<Option<Answers>, AllocError> {
    if tokens.len() > TOKEN_LIMIT {
        return Ok(None);
    }
    let kinds = kinds_of(alloc, tokens)?;
    if !may_ask(graph, &kinds) {
        return Ok(None);
    }
    let charted = ask_chart(alloc, graph, &kinds)?;
    let parsed = ask_parser(alloc, parser, graph, tokens, steps)?;
    Ok(Some(Answers { parsed, charted }))
}
