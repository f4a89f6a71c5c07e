//! Edits of a grammar.

ghost use Rattle.std.specs.Prelude.{◌≡◌, ◌↔◌, IsTrue};

use crate::name::Name;
use crate::symbol::Symbols;
use crate::text::Text;
use std::alloc::AllocError;

/// A rule of a grammar, as in `E ::= E "+" E`.
#[derive(Debug, Drop)]
pub struct RuleText {
    /// The name of the nonterminal that it replaces.
    pub left: Name,
    /// The names and literals that replace it, from left to right.
    pub right: Symbols,
}

impl RuleText {
    /// Whether both are the same rule: the same left side and the same right side.
    #[tactic(auto, using(crate::specs::Sameness::sameness))]
    pub fn is_same(&self, other: &RuleText) -> bool
        ensures { IsTrue result ↔ (self.now ≡ other.now) }
    {
        self == other
    }
}

impl Clone for RuleText {
    ghost is_clone = { λ rule copy. copy ≡ rule };

    fn clone(&self) -> Result<RuleText, AllocError> {
        Ok(RuleText {
            left: self.left.clone()?,
            right: self.right.clone()?,
        })
    }
}

/// A named expression, as in `NUM = [0-9]+`.
#[derive(Debug, Drop)]
pub struct DefText {
    /// The name of the token or the skip.
    pub name: Name,
    /// The text of the expression, byte for byte. It is not read here.
    pub expression: Text,
}

impl DefText {
    /// Whether both are the same definition: the same name and the same text.
    #[tactic(auto, using(crate::specs::Sameness::sameness))]
    pub fn is_same(&self, other: &DefText) -> bool
        ensures { IsTrue result ↔ (self.now ≡ other.now) }
    {
        self == other
    }
}

impl Clone for DefText {
    ghost is_clone = { λ definition copy. copy ≡ definition };

    fn clone(&self) -> Result<DefText, AllocError> {
        Ok(DefText {
            name: self.name.clone()?,
            expression: self.expression.clone()?,
        })
    }
}

/// A change of a grammar.
#[derive(Debug, Drop, PartialEq, Eq)]
pub enum Edit {
    /// The rule is live from then on.
    AddRule(RuleText),
    /// The live rule with these sides ends.
    DropRule(RuleText),
    /// Pieces of a text that match the expression are tokens of this name.
    AddToken(DefText),
    /// The token of this name ends.
    DropToken(Name),
    /// Pieces of a text that match the expression are passed over.
    AddSkip(DefText),
    /// The skip of this name ends.
    DropSkip(Name),
}

impl Clone for Edit {
    ghost is_clone = { λ edit copy. copy ≡ edit };

    fn clone(&self) -> Result<Edit, AllocError> {
        match self {
            Edit::AddRule(rule) => Ok(Edit::AddRule(rule.clone()?)),
            Edit::DropRule(rule) => Ok(Edit::DropRule(rule.clone()?)),
            Edit::AddToken(definition) => Ok(Edit::AddToken(definition.clone()?)),
            Edit::DropToken(name) => Ok(Edit::DropToken(name.clone()?)),
            Edit::AddSkip(definition) => Ok(Edit::AddSkip(definition.clone()?)),
            Edit::DropSkip(name) => Ok(Edit::DropSkip(name.clone()?)),
        }
    }
}
