//! The answers of a grammar's look-ups, each alone.
//!
//! A contract of a look-up says the whole answer, and a proof over it is long. Behind these functions, which have
//! no contract, the answers are plain values.

use edit_log::{DefId, DefKind, Grammar, Ready, Touch};
use forest::{Rule, RuleId, SymbolId};
use grammar_text::Symbol;
use regex_ast::Positions;

pub(crate) fn version_of(grammar: &Grammar) -> u32 {
    grammar.version()
}

pub(crate) fn live_of(grammar: &Grammar) -> &[DefId] {
    grammar.live_defs()
}

pub(crate) fn kind_of(grammar: &Grammar, definition: DefId) -> Option<DefKind> {
    grammar.kind(definition)
}

pub(crate) fn count_symbols(grammar: &Grammar) -> u32 {
    grammar.symbols()
}

pub(crate) fn name_of(grammar: &Grammar, number: u32) -> Option<&Symbol> {
    if number >= grammar.symbols() {
        return None;
    }
    Some(grammar.name(SymbolId(number)))
}

pub(crate) fn number_of(grammar: &Grammar, symbol: &Symbol) -> Option<SymbolId> {
    grammar.symbol(symbol)
}

pub(crate) fn rule_of(grammar: &Grammar, number: u32) -> Option<&Rule> {
    grammar.rule(RuleId(number))
}

pub(crate) fn rules_of(grammar: &Grammar, left: u32) -> &[RuleId] {
    grammar.rules_of(SymbolId(left))
}

pub(crate) fn positions_of(grammar: &Grammar, definition: DefId) -> Option<&Positions> {
    grammar.positions(definition)
}

pub(crate) fn touch_of(ready: &Ready) -> &Touch {
    ready.touch()
}
