//! Rules, and lists of them that ascend by number.

ghost use Rattle.std.specs.Prelude.{◌≡◌, ◌↔◌, IsTrue};
ghost use Rattle.std.specs.List.Sorted.{IsStrictlySortedBy};
ghost use Rattle.std.proofs.lemmas.Map.Keys.{IsStrictlySortedBy-prop};
ghost use Rattle.forest.specs.Orders.{rule_cmp};

use crate::symbols::{SymbolId, Symbols};
use lists::ListOf;

/// The number of a rule.
#[derive(Clone, Copy, PartialEq, Eq, PartialOrd, Ord, Hash, Debug)]
pub struct RuleId(pub u32);

/// A rule: its left side may be replaced by its right side.
#[derive(PartialEq, Eq, Debug, Drop)]
pub struct Rule {
    /// The number that tells it from other rules.
    pub number: RuleId,
    /// Its left side: the symbol that may be replaced.
    pub left: SymbolId,
    /// Its right side: the symbols that may replace it, from left to right.
    pub right: Symbols,
}

/// A list of rules.
pub type RuleList = ListOf<Rule>;

/// The live rules of a grammar, ascending by number, so that no number comes twice.
#[derive(PartialEq, Eq, Debug, Drop)]
pub struct Rules {
    /// The rules in this order.
    pub rules: RuleList,
    pub ghost ascending: { IsStrictlySortedBy rule_cmp rules } by { IsStrictlySortedBy-prop rule_cmp rules },
}

/// Whether rules strictly ascend by number, as those of a grammar do.
pub fn is_ascending(rules: &[Rule]) -> bool
    ensures { IsTrue result ↔ IsStrictlySortedBy rule_cmp rules.now }
{
    for at in 1..rules.len() {
        if rules[at - 1].number >= rules[at].number {
            return false;
        }
    }
    true
}
