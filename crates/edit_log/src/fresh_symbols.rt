//! Symbols that an edit brings, and the numbers that they get.

ghost use Rattle.std.specs.Prelude.{◌≡◌, ◌+◌, ◌<◌, ◌≤◌, ◌^◌, ◌++◌, [], length, map, position, IfOk, OnOk};
ghost use Rattle.std.specs.List.{AllByRecursion, list_any};
ghost use Rattle.edit_log.specs.Live.{is_literal};
ghost use Rattle.grammar_text.specs.Sameness.{spelling_eq};
ghost use Rattle.edit_log.specs.Replicas.{ArePositionsOfSymbol, IsFreshSymbol, symbols_in};
ghost use Rattle.edit_log.specs.Sizes.{IsSized};
ghost use Rattle.edit_log.specs.Symbols.{number_of, with_symbol, with_symbols, numbered};
ghost use Rattle.grammar_text.specs.declared.symbol.Symbol.TheVariants.{Named as named};
ghost use Rattle.std.specs.Prelude.{◌∷◌};

use forest::{Rule, RuleId, SymbolId, Symbols};
use grammar_text::{RuleText, Symbol};
use indexmap::IndexSet;
use regex_ast::Positions;
use std::alloc::{AllocError, Global};

/// A symbol that has no number yet, with what is kept of each symbol.
#[derive(Drop)]
pub(crate) struct FreshSymbol {
    /// The name or the literal.
    pub(crate) symbol: Symbol,
    /// Those of a literal.
    pub(crate) positions: Option<Positions>,
    /// The rules whose left side it is: none, with room for one.
    pub(crate) rules: Vec<RuleId>,
}

/// The positions of a literal, and none of a name.
fn positions_of(alloc: Global, symbol: &Symbol) -> Result<Option<Positions>, AllocError>
    requires { IsSized symbol.now }
    ensures { IfOk result (ArePositionsOfSymbol symbol.now) }
{
    match symbol {
        Symbol::Named(_) => Ok(None),
        Symbol::Literal(text) => {
            let positions = Positions::of_literal(alloc, text.bytes())?;
            Ok(Some(positions))
        }
    }
}

fn fresh(alloc: Global, symbol: &Symbol) -> Result<FreshSymbol, AllocError>
    requires { IsSized symbol.now }
    ensures symbol { IfOk result (λ one. one.symbol ≡ symbol.now) }
    ensures fresh { IfOk result IsFreshSymbol }
{
    Ok(FreshSymbol {
        symbol: symbol.clone()?,
        positions: positions_of(alloc, symbol)?,
        rules: Vec::with_capacity(alloc, 1)?,
    })
}

/// The place of the symbol among those that are fresh.
fn place_in(fresh: &[FreshSymbol], symbol: &Symbol) -> Option<usize>
    ensures { result ≡ position (spelling_eq symbol.now) (symbols_in fresh.now) }
{
    for place in 0..fresh.len() {
        if fresh[place].symbol == *symbol {
            return Some(place);
        }
    }
    None
}

/// The number of the symbol, which gets the next one where it has none yet.
pub(crate) fn number_in(
    alloc: Global,
    known: &IndexSet<Symbol>,
    fresh: &mut Vec<FreshSymbol>,
    symbol: &Symbol,
) -> Result<SymbolId, AllocError>
    requires sized { IsSized symbol.now }
    requires room { length known.now.keys + length fresh.old.items < 2 ^ 32 }
    ensures grown { OnOk result (known.now.keys ++ symbols_in fresh.new.items ≡ with_symbol (known.now.keys ++ symbols_in fresh.old.items) symbol.now) }
    ensures few { OnOk result (length fresh.new.items ≤ length fresh.old.items + 1) }
    ensures fresh { AllByRecursion IsFreshSymbol fresh.old.items → AllByRecursion IsFreshSymbol fresh.new.items }
    ensures number { IfOk result (λ number. number ≡ number_of (known.now.keys ++ symbols_in fresh.new.items) symbol.now) }
{
    if let Some(place) = known.get_index_of(symbol) {
        return Ok(SymbolId(place as u32));
    }
    if let Some(place) = place_in(fresh, symbol) {
        return Ok(SymbolId((known.len() + place) as u32));
    }
    let place = known.len() + fresh.len();
    fresh.push(crate::fresh_symbols::fresh(alloc, symbol)?)?;
    Ok(SymbolId(place as u32))
}

/// The numbers of the symbols from left to right, each of which gets the next one where it has none yet.
fn numbers_in(
    alloc: Global,
    known: &IndexSet<Symbol>,
    fresh: &mut Vec<FreshSymbol>,
    symbols: &[Symbol],
) -> Result<Vec<SymbolId>, AllocError>
    requires sized { AllByRecursion IsSized symbols.now }
    requires room { length known.now.keys + length fresh.old.items + length symbols.now < 2 ^ 32 }
    ensures grown { OnOk result (known.now.keys ++ symbols_in fresh.new.items ≡ with_symbols (known.now.keys ++ symbols_in fresh.old.items) symbols.now) }
    ensures few { OnOk result (length fresh.new.items ≤ length fresh.old.items + length symbols.now) }
    ensures fresh { AllByRecursion IsFreshSymbol fresh.old.items → AllByRecursion IsFreshSymbol fresh.new.items }
    ensures numbers { IfOk result (λ numbers. numbers.items ≡ map (number_of (known.now.keys ++ symbols_in fresh.new.items)) symbols.now) }
{
    let mut numbers = Vec::with_capacity(alloc, symbols.len())?;
    for symbol in symbols {
        numbers.push(number_in(alloc, known, fresh, symbol)?)?;
    }
    Ok(numbers)
}

/// The rule with this number, and its symbols by theirs.
pub(crate) fn rule_in(
    alloc: Global,
    known: &IndexSet<Symbol>,
    fresh: &mut Vec<FreshSymbol>,
    number: RuleId,
    text: &RuleText,
) -> Result<Rule, AllocError>
    requires none { fresh.old.items ≡ [] }
    requires sized { AllByRecursion IsSized text.now.right }
    requires room { length known.now.keys + 1 + length text.now.right < 2 ^ 32 }
    ensures grown { OnOk result (known.now.keys ++ symbols_in fresh.new.items ≡ with_symbols known.now.keys (named text.now.left ∷ text.now.right)) }
    ensures few { OnOk result (length fresh.new.items ≤ 1 + length text.now.right) }
    ensures fresh { OnOk result (AllByRecursion IsFreshSymbol fresh.new.items) }
    ensures numbered { IfOk result (λ live. live ≡ numbered (known.now.keys ++ symbols_in fresh.new.items) number.0 text.now) }
{
    let left = number_in(alloc, known, fresh, &Symbol::Named(text.left.clone()?))?;
    let right = numbers_in(alloc, known, fresh, text.right.as_slice())?;
    Ok(Rule {
        number,
        left,
        right: Symbols::from_vec(right),
    })
}

/// Whether one of the symbols is a literal.
pub(crate) fn has_literal(fresh: &[FreshSymbol]) -> bool
    ensures { result ≡ list_any is_literal (symbols_in fresh.now) }
{
    for one in fresh {
        if let Symbol::Literal(_) = one.symbol {
            return true;
        }
    }
    false
}
