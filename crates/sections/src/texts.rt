//! Scanning and parsing a text over a page.

ghost use Rattle.std.specs.Prelude.{◌≡◌, ◌≤◌, length, IfOk, IfErr, OnOk};
ghost use Rattle.forest.specs.Derivation.{AreTerminals};
ghost use Rattle.edit_log.specs.declared.limits.TheConstants.{TOKEN_LIMIT};
ghost use Rattle.edit_log.specs.Facts.{IsWellFormed};
ghost use Rattle.graph_content.specs.Contents.{IsLogOfGrammar};
ghost use Rattle.isg_scan.specs.declared.scanning.TheConstants.{SCAN_LIMIT};
ghost use Rattle.forest.specs.Distinct.{AreAll};
ghost use Rattle.live_graph.specs.Showing.{HasStepped};
ghost use Rattle.live_graph.specs.Growing.{WhereBothTold};
ghost use Rattle.live_graph.specs.Cost.{RisesAsCost};
ghost use Rattle.rekers.specs.Answers.{kinds_of};
ghost use Rattle.sections.specs.Asked.{AsksAll, AsksText, AsksTokens};
ghost use Rattle.sections.specs.Held.{ScansKey, AsksFor, UsesKeys, AddsRowsOf};
ghost use Rattle.sections.specs.Recording.{ShowsText, shown_for};
ghost use Rattle.replies.specs.Replies.{IsParse, IsOutcome, IsResult};

use edit_log::Grammar;
use forest::Token;
use graph_content::GraphRows;
use isg_scan::{ScanError, scan};
use live_graph::{Graph, NoMemory, SharedGraph, Tallies};
use rekers::{ParseError, Parser};
use replies::{Outcome, TokenList};
use slot_store::page::Page;
use std::alloc::{AllocError, Global};
use std::sync::ledger::Ledger;
use steps::Steps;

/// What a scan of the text over the graph gives.
fn scan_over<G: Graph, L: Ledger>(
    alloc: Global,
    graph: &mut G,
    text: &[u8],
    steps: &mut Steps<L>,
) -> Result<Result<TokenList, ScanError>, NoMemory>
    requires short { length text.now ≤ SCAN_LIMIT }
    ensures scanned { IfOk result (IsResult (G.means graph.old).grammar text.now) }
    ensures asks { OnOk result (AsksAll (ScansKey (G.means graph.old).grammar text.now) (G.means graph.old) (G.means graph.new)) }
    ensures steps { OnOk result (RisesAsCost (G.means graph.old) (G.means graph.new) steps.old steps.new) }
    ensures grammar { (G.means graph.new).grammar ≡ (G.means graph.old).grammar }
    ensures base { (G.means graph.new).base ≡ (G.means graph.old).base }
{
    match scan(alloc, graph, text, steps) {
        Ok(found) => Ok(Ok(TokenList::from_vec(found))),
        Err(ScanError::NoMemory) => Err(AllocError),
        Err(error) => Ok(Err(error)),
    }
}

/// Parses the tokens over the graph.
fn parse_tokens<G: Graph, L: Ledger>(
    alloc: Global,
    parser: &mut Parser,
    graph: &mut G,
    tokens: &[Token],
    steps: &mut Steps<L>,
) -> Result<Outcome, NoMemory>
    requires few { length tokens.now ≤ TOKEN_LIMIT }
    requires terminals { AreTerminals (G.means graph.old).grammar.rules (kinds_of tokens.now) }
    ensures parsed { IfOk result (IsParse (G.means graph.old).grammar.rules (kinds_of tokens.now)) }
    ensures asks { IfOk result (λ outcome. AsksTokens (kinds_of tokens.now) outcome (G.means graph.old) (G.means graph.new)) }
    ensures scans { (G.means graph.new).scans ≡ (G.means graph.old).scans }
    ensures steps { OnOk result (RisesAsCost (G.means graph.old) (G.means graph.new) steps.old steps.new) }
    ensures grammar { (G.means graph.new).grammar ≡ (G.means graph.old).grammar }
    ensures base { (G.means graph.new).base ≡ (G.means graph.old).base }
{
    match parser.parse(alloc, graph, tokens, steps) {
        Ok(parsed) => Ok(Outcome::Parsed(parsed)),
        Err(ParseError::TooLarge { .. }) => Ok(Outcome::TooLarge),
        Err(ParseError::NoMemory) => Err(AllocError),
    }
}

/// Scans and parses the text over one graph.
fn parse_over<G: Graph, L: Ledger>(
    alloc: Global,
    parser: &mut Parser,
    graph: &mut G,
    text: &[u8],
    steps: &mut Steps<L>,
) -> Result<Outcome, NoMemory>
    requires short { length text.now ≤ SCAN_LIMIT }
    requires well_formed { IsWellFormed (G.means graph.old).grammar }
    ensures parsed { IfOk result (IsOutcome (G.means graph.old).grammar text.now) }
    ensures asks { IfOk result (λ outcome. AsksText (G.means graph.old).grammar text.now outcome (G.means graph.old) (G.means graph.new)) }
    ensures steps { OnOk result (RisesAsCost (G.means graph.old) (G.means graph.new) steps.old steps.new) }
    ensures grammar { (G.means graph.new).grammar ≡ (G.means graph.old).grammar }
    ensures base { (G.means graph.new).base ≡ (G.means graph.old).base }
{
    let tokens = match scan(alloc, graph, text, steps) {
        Ok(tokens) => tokens,
        Err(ScanError::NoMemory) => return Err(AllocError),
        Err(error) => return Ok(Outcome::Scan(error)),
    };
    let outcome = parse_tokens(alloc, parser, graph, &tokens, steps)?;
    Ok(outcome)
}

/// Scans and parses the text over a graph that stands on the page. The page comes back with how the expansions came.
/// Where it tells its graph, the keys that were asked for are those that the text reaches, and the tallies are theirs.
pub(crate) fn parse_text<P: Page<GraphRows>, L: Ledger>(
    alloc: Global,
    parser: &mut Parser,
    grammar: &Grammar,
    page: P,
    text: &[u8],
    steps: &mut Steps<L>,
) -> Result<(P, Outcome, Tallies), (P, NoMemory)>
    requires short { length text.now ≤ SCAN_LIMIT }
    requires log { IsLogOfGrammar (P.means page).log grammar.now.grammar }
    ensures outcome { IfOk result (λ done. IsOutcome grammar.now.grammar text.now done.1) }
    ensures uses { IfOk result (λ done. WhereBothTold (P.means page).graph (P.means done.0).graph
        (UsesKeys (P.means page).sizes grammar.now.grammar (AsksFor grammar.now.grammar text.now done.1) done.2 steps.old steps.new)) }
    ensures shown { IfOk result (λ done. ShowsText (P.means page) (P.means done.0) grammar.now.grammar
        (shown_for grammar.now.grammar text.now done.1)) }
    ensures refused { IfErr result (λ refused. HasStepped (P.means page) (P.means refused.0)) }
    ensures rows { IfErr result (λ refused. WhereBothTold (P.means page).graph (P.means refused.0).graph (AddsRowsOf grammar.now.grammar)) }
{
    let mut graph = match SharedGraph::new(alloc, page, grammar) {
        Ok(graph) => graph,
        Err((page, error)) => return Err((page, error)),
    };
    let parsed = parse_over(alloc, parser, &mut graph, text, steps);
    let (page, tallies) = graph.end();
    match parsed {
        Ok(outcome) => Ok((page, outcome, tallies)),
        Err(error) => Err((page, error)),
    }
}

/// Scans the text over a graph that stands on the page. The page comes back with how the expansions came. Where it
/// tells its graph, the keys that were asked for are those that the scan reaches, and the tallies are theirs.
pub(crate) fn scan_text<P: Page<GraphRows>, L: Ledger>(
    alloc: Global,
    grammar: &Grammar,
    page: P,
    text: &[u8],
    steps: &mut Steps<L>,
) -> Result<(P, Result<TokenList, ScanError>, Tallies), (P, NoMemory)>
    requires short { length text.now ≤ SCAN_LIMIT }
    requires log { IsLogOfGrammar (P.means page).log grammar.now.grammar }
    ensures scanned { IfOk result (λ done. IsResult grammar.now.grammar text.now done.1) }
    ensures uses { IfOk result (λ done. WhereBothTold (P.means page).graph (P.means done.0).graph
        (UsesKeys (P.means page).sizes grammar.now.grammar (AreAll (ScansKey grammar.now.grammar text.now)) done.2 steps.old steps.new)) }
    ensures shown { IfOk result (λ done. ShowsText (P.means page) (P.means done.0) grammar.now.grammar (ScansKey grammar.now.grammar text.now)) }
    ensures refused { IfErr result (λ refused. HasStepped (P.means page) (P.means refused.0)) }
    ensures rows { IfErr result (λ refused. WhereBothTold (P.means page).graph (P.means refused.0).graph (AddsRowsOf grammar.now.grammar)) }
{
    let mut graph = match SharedGraph::new(alloc, page, grammar) {
        Ok(graph) => graph,
        Err((page, error)) => return Err((page, error)),
    };
    let scanned = scan_over(alloc, &mut graph, text, steps);
    let (page, tallies) = graph.end();
    match scanned {
        Ok(result) => Ok((page, result, tallies)),
        Err(error) => Err((page, error)),
    }
}
