//! Searches for a symbol.

ghost use Rattle.std.specs.Prelude.{◌≡◌, ◌↔◌, IfSome, IfNone, IsTrue, Some, Contains, slice_get};
ghost use Rattle.std.specs.List.Sorted.{IsStrictlySortedBy};
ghost use Rattle.forest.specs.declared.symbols.SymbolId.{SymbolId};
ghost use Rattle.forest.specs.Derivation.{IsNonterminal};
ghost use Rattle.parser_states.specs.Rows.{symbol_cmp};

use edit_log::Grammar;
use forest::SymbolId;

/// The place of the symbol among ascending ones.
pub(crate) fn place_of(symbols: &[SymbolId], symbol: SymbolId) -> Option<usize>
    ensures found { IfSome result (λ place. slice_get symbols.now place ≡ Some symbol) }
    ensures none { IfNone result (IsStrictlySortedBy symbol_cmp symbols.now → Contains symbols.now symbol → ⊥) }
{
    symbols
        .binary_search_by(|other| other.0.cmp(&symbol.0))
        .ok()
}

/// Whether some of the symbols is the left side of a rule.
pub(crate) fn has_nonterminal(grammar: &Grammar, symbols: &[SymbolId]) -> bool
    ensures { IsTrue result ↔ ((x : SymbolId) × Contains symbols.now x × IsNonterminal grammar.now.grammar.rules x) }
{
    for symbol in symbols {
        if !grammar.rules_of(*symbol).is_empty() {
            return true;
        }
    }
    false
}
