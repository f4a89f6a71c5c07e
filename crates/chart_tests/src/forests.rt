//! What the chart gives, as text.

use crate::cases::Case;
use crate::search::found_by_search;
use forest::{Forest, Rules, SymbolId};
use plain_chart::{ChartError, MOST_TOKENS, are_terminals, chart};
use std::alloc::{AllocError, Global};

/// What the chart answers.
#[derive(Drop)]
enum Answer {
    /// It was not asked, since a token is the left side of a rule, or there are too many for a row.
    NotAsked,
    TooLarge(u32),
    NoSentence,
    Forest(Forest),
}

/// The chart's answer, where its conditions hold.
fn ask(alloc: Global, rules: &Rules, tokens: &[SymbolId]) -> Result<Answer, AllocError> {
    if tokens.len() > 2 * MOST_TOKENS {
        return Ok(Answer::NotAsked);
    }
    if !are_terminals(rules, tokens) {
        return Ok(Answer::NotAsked);
    }
    match chart(alloc, rules, tokens) {
        Ok(Some(forest)) => Ok(Answer::Forest(forest)),
        Ok(None) => Ok(Answer::NoSentence),
        Err(ChartError::TooLarge { tokens }) => Ok(Answer::TooLarge(tokens)),
        Err(ChartError::NoMemory) => Err(AllocError),
    }
}

/// Each node as its symbol, its ends and its splits.
fn told_nodes(alloc: Global, forest: &Forest) -> Result<String, AllocError> {
    let mut told = String::new(alloc);
    for node in forest.nodes.as_slice() {
        told.push_str(&format!(in alloc; "{} {}-{}:", node.symbol.0, node.from, node.to)?)?;
        for split in node.splits.as_slice() {
            let cuts = split.cuts.as_slice();
            told.push_str(&format!(in alloc; " {}@{cuts:?}", split.rule.0)?)?;
        }
        told.push_str("; ")?;
    }
    Ok(told)
}

fn told_counts(alloc: Global, forest: &Forest) -> Result<String, AllocError> {
    let nodes = forest.nodes.as_slice().len();
    format!(in alloc; "{nodes} nodes, {} splits", forest.count_splits())
}

/// What is told of the chart's answer for the case: its nodes.
pub(crate) fn told_chart(alloc: Global, case: &Case) -> Result<String, AllocError> {
    match ask(alloc, &case.rules, &case.tokens)? {
        Answer::NotAsked => String::from_str(alloc, "not asked"),
        Answer::TooLarge(tokens) => format!(in alloc; "too large {tokens}"),
        Answer::NoSentence => String::from_str(alloc, "none"),
        Answer::Forest(forest) => told_nodes(alloc, &forest),
    }
}

/// How many nodes and splits the chart's forest of the case has.
pub(crate) fn told_sizes(alloc: Global, case: &Case) -> Result<String, AllocError> {
    match ask(alloc, &case.rules, &case.tokens)? {
        Answer::Forest(forest) => told_counts(alloc, &forest),
        _ => String::from_str(alloc, "no forest"),
    }
}

/// Whether the chart gives what a search over all cuts finds, and what each gives where not.
pub(crate) fn told_agreement(alloc: Global, case: &Case) -> Result<String, AllocError> {
    let found = found_by_search(alloc, case.rules.rules.as_slice(), &case.tokens)?;
    let told = told_chart(alloc, case)?;
    if told == found {
        return String::from_str(alloc, "agrees");
    }
    format!(in alloc; "the chart: {told}, the search: {found}")
}
