//! Families of drawn grammars, each with all its texts of up to some tokens.

ghost use Rattle.std.specs.Prelude.{◌≡◌, ◌<◌};

use crate::comparing::{Counts, are_same};
use crate::draws::Draws;
use crate::grammars::grammar_of;
use crate::texts::asked;
use edit_log::Grammar;
use live_graph::{Graph, PrivateGraph};
use rekers::Parser;
use std::alloc::{AllocError, Global};
use std::marker::Brand;
use std::sync::ledger::{Blank, Ledger};
use steps::Steps;

/// The symbol with a number: three names, and then two literals.
fn symbol(number: u64) -> char {
    match number {
        0 => 'S',
        1 => 'A',
        2 => 'B',
        3 => 'a',
        _ => 'b',
    }
}

/// Adds a rule of one of the names, with up to three symbols.
fn add_rule(rules: &mut String, draws: &mut Draws) -> Result<(), AllocError> {
    rules.push_str(" ")?;
    rules.push(symbol(draws.below(3)))?;
    rules.push_str("=")?;
    for _ in 0..draws.below(4) {
        rules.push(symbol(draws.below(5)))?;
    }
    Ok(())
}

/// Five rules. Where two are the same, the grammar has fewer.
fn drawn_rules(alloc: Global, draws: &mut Draws) -> Result<String, AllocError> {
    let mut rules = String::new(alloc);
    for _ in 0..5 {
        add_rule(&mut rules, draws)?;
    }
    Ok(rules)
}

/// The text with a number: a letter for each binary digit behind its first, the last digit first.
fn text_of(alloc: Global, number: u64) -> Result<String, AllocError> {
    let mut text = String::new(alloc);
    let mut left = number;
    for _ in 0..64 {
        if left > 1 {
            text.push_str(if left % 2 == 0 { "a" } else { "b" })?;
            left /= 2;
        }
    }
    Ok(text)
}

/// Whether parser and chart answer the same for the text, which is counted.
fn compare_text<G: Graph, L: Ledger>(
    alloc: Global,
    parser: &mut Parser,
    graph: &mut G,
    text: &str,
    counts: &mut Counts,
    steps: &mut Steps<L>,
) -> Result<bool, AllocError> {
    match asked(alloc, parser, graph, text.as_bytes(), steps)? {
        Some(answers) => {
            counts.add(&answers);
            Ok(are_same(&answers))
        }
        None => Ok(true),
    }
}

/// The first text of up to so many letters for which parser and chart differ.
fn first_difference<G: Graph, L: Ledger>(
    alloc: Global,
    parser: &mut Parser,
    graph: &mut G,
    longest: u64,
    counts: &mut Counts,
    steps: &mut Steps<L>,
) -> Result<Option<String>, AllocError> {
    for number in 1..2_u64 << longest.min(20) {
        let text = text_of(alloc, number)?;
        if !compare_text(alloc, parser, graph, text.as_str(), counts, steps)? {
            return Ok(Some(text));
        }
    }
    Ok(None)
}

/// The same over a graph of its own.
fn compare_grammar<L: Ledger>(
    alloc: Global,
    parser: &mut Parser,
    grammar: &Grammar,
    longest: u64,
    counts: &mut Counts,
    blank: Blank,
) -> Result<Option<String>, AllocError>
    requires name { blank.name ≡ L.name }
    requires parts { blank.parts ≡ L.parts }
    requires some { 0 < L.parts }
{
    let mut graph = PrivateGraph::new(alloc, grammar)?;
    let mut steps = Steps::<L>::new(blank);
    first_difference(alloc, parser, &mut graph, longest, counts, &mut steps)
}

fn compare_rules(
    alloc: Global,
    parser: &mut Parser,
    rules: &str,
    longest: u64,
    counts: &mut Counts,
) -> Result<Option<String>, AllocError> {
    let grammar = grammar_of(alloc, rules)?;
    compare_grammar::<Brand>(alloc, parser, &grammar, longest, counts, Blank::new(1))
}

/// The first of so many drawn grammars with a text for which parser and chart differ, or what was counted. One parser
/// serves all.
fn told_drawn(alloc: Global, seed: u64, count: u64, longest: u64) -> Result<String, AllocError> {
    let mut draws = Draws::new(seed);
    let mut parser = Parser::new(alloc);
    let mut counts = Counts::new();
    for _ in 0..count {
        let rules = drawn_rules(alloc, &mut draws)?;
        let rules = rules.as_str();
        if let Some(text) = compare_rules(alloc, &mut parser, rules, longest, &mut counts)? {
            return format!(in alloc; "DIFFERS at{rules}/{text}");
        }
    }
    counts.told(alloc)
}

/// The number, or 0 where it is none.
fn number_in(word: Option<&str>) -> u64 {
    match word.unwrap_or("").parse::<u64>() {
        Ok(number) => number,
        Err(_) => 0,
    }
}

/// What is told of a family `SEED GRAMMARS LENGTH`.
pub(crate) fn told_family(alloc: Global, row: &str) -> Result<String, AllocError> {
    let mut words = row.split_whitespace();
    let seed = number_in(words.next());
    let count = number_in(words.next());
    let longest = number_in(words.next());
    told_drawn(alloc, seed, count, longest)
}
