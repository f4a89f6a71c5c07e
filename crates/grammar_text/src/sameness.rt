//! Equality and hashes of names, symbols, rules and definitions.

ghost use Rattle.std.specs.Prelude.{◌≡◌, ◌++◌};
ghost use Rattle.std.specs.Str.{bytes_eq};
ghost use Rattle.std.specs.Cmp.{decided, partial_equiv_from_equiv};
ghost use Rattle.std.specs.Hash as fed;
ghost use Rattle.std.proofs.lemmas.Slice.Eq.{bytes_eq-Decides};
ghost use Rattle.grammar_text.specs.Sameness.{spelling_eq, spelling_eq-decides, symbols_eq, symbols_eq-decides, rule_eq, rule_eq-decides, definition_eq};
ghost use Rattle.grammar_text.specs.Sameness.{definition_eq-decides, symbol_fed};

use crate::edit::{DefText, RuleText};
use crate::name::Name;
use crate::symbol::Symbol;
use crate::text::Text;
use std::hash::{Hash, Hasher};

impl PartialEq for Name {
    ghost eq = { bytes_eq };

    ghost laws = { partial_equiv_from_equiv (decided bytes_eq bytes_eq-Decides) };

    fn eq(&self, other: &Name) -> bool {
        self.bytes() == other.bytes()
    }
}

impl Eq for Name {
    ghost laws = { decided bytes_eq bytes_eq-Decides };
}

impl Hash for Name {
    ghost hash_input = { fed.slice fed.u8 };

    ghost respects_eq = { (fed.same_Alike (fed.slice fed.u8) bytes_eq-Decides).fed };

    fn hash<H: Hasher>(&self, state: &mut H) {
        self.bytes().hash(state);
    }
}

impl PartialEq for Text {
    ghost eq = { bytes_eq };

    ghost laws = { partial_equiv_from_equiv (decided bytes_eq bytes_eq-Decides) };

    fn eq(&self, other: &Text) -> bool {
        self.bytes() == other.bytes()
    }
}

impl Eq for Text {
    ghost laws = { decided bytes_eq bytes_eq-Decides };
}

impl Hash for Text {
    ghost hash_input = { fed.slice fed.u8 };

    ghost respects_eq = { (fed.same_Alike (fed.slice fed.u8) bytes_eq-Decides).fed };

    fn hash<H: Hasher>(&self, state: &mut H) {
        self.bytes().hash(state);
    }
}

impl PartialEq for Symbol {
    ghost eq = { spelling_eq };

    ghost laws = { partial_equiv_from_equiv (decided spelling_eq spelling_eq-decides) };

    fn eq(&self, other: &Symbol) -> bool {
        match (self, other) {
            (Symbol::Named(name), Symbol::Named(other)) => name == other,
            (Symbol::Literal(text), Symbol::Literal(other)) => text == other,
            _ => false,
        }
    }
}

impl Eq for Symbol {
    ghost laws = { decided spelling_eq spelling_eq-decides };
}

impl Hash for Symbol {
    ghost hash_input = { symbol_fed };

    ghost respects_eq = { (fed.same_Alike symbol_fed spelling_eq-decides).fed };

    fn hash<H: Hasher>(&self, state: &mut H) {
        match self {
            Symbol::Named(name) => {
                state.write_u8(0);
                name.hash(state);
            }
            Symbol::Literal(text) => {
                state.write_u8(1);
                text.hash(state);
            }
        }
    }
}

impl PartialEq for RuleText {
    ghost eq = { rule_eq };

    ghost laws = { partial_equiv_from_equiv (decided rule_eq rule_eq-decides) };

    fn eq(&self, other: &RuleText) -> bool {
        self.left == other.left && self.right == other.right
    }
}

impl Eq for RuleText {
    ghost laws = { decided rule_eq rule_eq-decides };
}

impl Hash for RuleText {
    ghost hash_input = { λ rule. fed.slice fed.u8 rule.left ++ fed.slice symbol_fed rule.right };

    ghost respects_eq = { (fed.same_Alike (λ rule. fed.slice fed.u8 rule.left ++ fed.slice symbol_fed rule.right) rule_eq-decides).fed };

    fn hash<H: Hasher>(&self, state: &mut H) {
        self.left.hash(state);
        self.right.hash(state);
    }
}

impl PartialEq for DefText {
    ghost eq = { definition_eq };

    ghost laws = { partial_equiv_from_equiv (decided definition_eq definition_eq-decides) };

    fn eq(&self, other: &DefText) -> bool {
        self.name == other.name && self.expression == other.expression
    }
}

impl Eq for DefText {
    ghost laws = { decided definition_eq definition_eq-decides };
}

impl Hash for DefText {
    ghost hash_input = { λ definition. fed.slice fed.u8 definition.name ++ fed.slice fed.u8 definition.expression };

    ghost respects_eq = { (fed.same_Alike (λ definition. fed.slice fed.u8 definition.name ++ fed.slice fed.u8 definition.expression)
        definition_eq-decides).fed };

    fn hash<H: Hasher>(&self, state: &mut H) {
        self.name.hash(state);
        self.expression.hash(state);
    }
}
