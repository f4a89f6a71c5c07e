//! Symbols, and lists of them.

ghost use Rattle.std.specs.Prelude.{◌≡◌, ◌↔◌, IsTrue, List, length};

use crate::name::Name;
use crate::text::Text;
use lists::ListOf;
use std::alloc::AllocError;

/// A symbol of a rule's right side.
#[derive(Debug, Drop)]
pub enum Symbol {
    /// The name of a nonterminal or of a token.
    Named(Name),
    /// A text that stands for itself, by the bytes that its escapes stand for.
    Literal(Text),
}

impl Symbol {
    /// Whether both are the same symbol. A name and a literal never are.
    #[tactic(auto, using(crate::specs::Sameness::sameness))]
    pub fn is_same(&self, other: &Symbol) -> bool
        ensures { IsTrue result ↔ (self.now ≡ other.now) }
    {
        self == other
    }
}

impl Clone for Symbol {
    ghost is_clone = { λ symbol copy. copy ≡ symbol };

    fn clone(&self) -> Result<Symbol, AllocError> {
        match self {
            Symbol::Named(name) => Ok(Symbol::Named(name.clone()?)),
            Symbol::Literal(text) => Ok(Symbol::Literal(text.clone()?)),
        }
    }
}

/// Symbols in their order. A contract sees the list of them.
pub type Symbols = ListOf<Symbol>;
