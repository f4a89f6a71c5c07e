//! How symbols are looked up by their numbers.

ghost use Rattle.std.specs.Prelude.{◌≡◌, ◌<◌, length};
ghost use Rattle.edit_log.specs.Facts.{IsNamed};
ghost use Rattle.edit_log.specs.Symbols.{symbol_at};
ghost use Rattle.forest_print.specs.Lines.{name_of};

use edit_log::Grammar;
use forest::SymbolId;
use grammar_text::Symbol;

/// The symbol with this number.
pub(crate) fn symbol(grammar: &Grammar, number: SymbolId) -> &Symbol
    requires { number.0 < length grammar.now.grammar.symbols }
    ensures { result.now ≡ symbol_at grammar.now.grammar.symbols number }
{
    grammar.name(number)
}

/// The bytes of the name with this number.
pub(crate) fn name(grammar: &Grammar, number: SymbolId) -> &[u8]
    requires { IsNamed grammar.now.grammar.symbols number }
    ensures { result.now ≡ name_of grammar.now.grammar.symbols number }
{
    match grammar.name(number) {
        Symbol::Named(name) => name.bytes(),
        Symbol::Literal(_) => unreachable!(),
    }
}
