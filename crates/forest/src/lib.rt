//! Symbols and rules, what they derive, and the shared packed forest of a text.
//!
//! Plain data for every layer above: numbers, tokens, rules and forests, with their orders. `specs/`
//! says what it is that rules derive, and which forest belongs to a text.
#![tactic(auto)]

use std::alloc::AllocError;

mod forest;
mod nodes;
mod rules;
mod symbols;

pub use forest::Forest;
pub use nodes::{Cuts, Node, Nodes, Split, Splits};
pub use rules::{Rule, RuleId, RuleList, Rules, is_ascending};
pub use symbols::{START, SymbolId, Symbols, Token, number_of_start};

/// Memory ran out.
pub type NoMemory = AllocError;
