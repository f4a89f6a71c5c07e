//! The forest that rules define, by a plain fixpoint over spans.
//!
//! [`chart`] is slow and simple on purpose: it is what faster parsers are measured against. It first
//! derives spans from spans until nothing is added, as the chart of Cocke, Younger and Kasami does for
//! rules of any form, then marks the spans that the forest reaches, and last lists the splits of each.
#![tactic(auto)]

ghost use Rattle.std.specs.Prelude.{◌≡◌, ◌<◌, ◌↔◌, ℕ, IsTrue, IfOk, IfSome, IfNone, length, Result, Err};
ghost use Rattle.forest.specs.Derivation.{IsSentence, IsNonterminal, AreTerminals};
ghost use Rattle.forest.specs.Forests.{IsForestOf};
ghost use Rattle.plain_chart.specs.declared.limits.TheConstants.{MOST_TOKENS, PLACES};

mod cuts;
mod derive;
mod limits;
mod nodes;
mod reach;
mod spans;

use crate::derive::{derived_spans, is_known};
pub use crate::limits::{MOST_TOKENS, limits_of_charts};
use crate::nodes::forest_of;
use crate::spans::is_same;
use forest::{Forest, Rule, Rules, START, SymbolId};
use std::alloc::{AllocError, Global};

/// Why there is no answer.
#[derive(Clone, Copy, PartialEq, Eq, Debug)]
pub enum ChartError {
    /// There are more tokens than a chart takes.
    TooLarge {
        /// How many tokens there are, more than [`MOST_TOKENS`].
        tokens: u32,
    },
    /// There was no memory.
    NoMemory,
}

/// Whether no token's kind is the left side of a rule, as [`chart`] asks.
pub fn are_terminals(rules: &Rules, tokens: &[SymbolId]) -> bool
    ensures { IsTrue result ↔ AreTerminals rules.now.rules tokens.now }
{
    for kind in tokens {
        if is_left(rules.rules.as_slice(), *kind) {
            return false;
        }
    }
    true
}

/// Whether the symbol is the left side of a rule.
fn is_left(rules: &[Rule], symbol: SymbolId) -> bool
    ensures { IsTrue result ↔ IsNonterminal rules.now symbol }
{
    for rule in rules {
        if is_same(rule.left, symbol) {
            return true;
        }
    }
    false
}

/// The forest of the tokens, which are given by their kinds, or none where START does not derive them.
pub fn chart(
    alloc: Global,
    rules: &Rules,
    tokens: &[SymbolId],
) -> Result<Option<Forest>, ChartError>
    requires countable { length tokens.now < 4294967296 }
    requires terminals { AreTerminals rules.now.rules tokens.now }
    ensures forest { IfOk result (λ answer. IfSome answer (IsForestOf rules.now.rules tokens.now)) }
    ensures none { IfOk result (λ answer. IfNone answer (IsSentence rules.now.rules tokens.now → ⊥)) }
    ensures too_large { (count : ℕ) → (result ≡ Err (ChartError.TooLarge count)) ↔ ((MOST_TOKENS < length tokens.now) × (count ≡ length tokens.now)) }
{
    if tokens.len() > MOST_TOKENS {
        return Err(ChartError::TooLarge {
            tokens: tokens.len() as u32,
        });
    }
    match small_chart(alloc, rules, tokens) {
        Ok(answer) => Ok(answer),
        Err(_) => Err(ChartError::NoMemory),
    }
}

/// The same where there are few tokens.
fn small_chart(
    alloc: Global,
    rules: &Rules,
    tokens: &[SymbolId],
) -> Result<Option<Forest>, AllocError>
    requires few { length tokens.now < PLACES }
    requires terminals { AreTerminals rules.now.rules tokens.now }
    ensures forest { IfOk result (λ answer. IfSome answer (IsForestOf rules.now.rules tokens.now)) }
    ensures none { IfOk result (λ answer. IfNone answer (IsSentence rules.now.rules tokens.now → ⊥)) }
{
    let known = derived_spans(alloc, rules.rules.as_slice(), tokens)?;
    if !is_known(&known, tokens, START, 0, tokens.len() as u32) {
        return Ok(None);
    }
    let forest = forest_of(alloc, &known, rules, tokens)?;
    Ok(Some(forest))
}
