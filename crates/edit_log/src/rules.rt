//! The live rules in the order of their numbers.

ghost use Rattle.std.specs.Prelude.{◌≡◌, ◌<◌, ◌≤◌, ◌+◌, ◌==◌, ◌++◌, ◌∷◌, [], length, filter, find, not, option_map, slice_get, Some, IfSome, vec_len};
ghost use Rattle.std.specs.Prelude.{vec_capacity, Contains};
ghost use Rattle.std.specs.List.{AllByRecursion};
ghost use Rattle.std.specs.List.Sorted.{IsStrictlySortedBy};
ghost use Rattle.forest.specs.Orders.{rule_cmp};
ghost use Rattle.edit_log.specs.Lookups.{rule_of};

use forest::{Rule, RuleId, RuleList, Rules};
use std::alloc::Global;
use std::mem;

pub(crate) fn no_rules(alloc: Global) -> Rules
    ensures { result.rules ≡ [] }
{
    Rules {
        rules: RuleList::from_vec(Vec::new(alloc)),
    }
}

/// Puts the rule last, in the list's own memory or, where that is full, in the spare memory. Either way
/// none is asked for.
fn push_in(mut rules: Vec<Rule>, spare: &mut Vec<Rule>, live: Rule) -> Vec<Rule>
    requires empty { spare.old.items ≡ [] }
    requires room { length rules.items < vec_capacity spare.old }
    ensures rules { result.items ≡ rules.items ++ live ∷ [] }
    ensures empty { spare.new.items ≡ [] }
{
    if rules.len() < rules.capacity() {
        rules.push_reserved(live);
        return rules;
    }
    mem::swap(&mut rules, spare);
    match rules.append(spare) {
        Ok(()) => {}
        Err(_) => unreachable!(),
    }
    rules.push_reserved(live);
    rules
}

/// The rules with one more, whose number is the greatest.
pub(crate) fn with_rule(rules: Rules, spare: &mut Vec<Rule>, live: Rule) -> Rules
    requires last { AllByRecursion (λ r. r.number.0 < live.number.0) rules.rules }
    requires empty { spare.old.items ≡ [] }
    requires room { length rules.rules < vec_capacity spare.old }
    ensures rules { result.rules ≡ rules.rules ++ live ∷ [] }
    ensures empty { spare.new.items ≡ [] }
{
    let rules = push_in(rules.rules.into_vec(), spare, live);
    Rules {
        rules: RuleList::from_vec(rules),
    }
}

/// The place of the live rule with this number.
fn place_of(rules: &Rules, number: RuleId) -> Option<usize>
    ensures { option_map (λ place. slice_get rules.now.rules place) result ≡ option_map Some (rule_of rules.now.rules number) }
{
    let found = rules
        .rules
        .as_slice()
        .binary_search_by(|live| live.number.0.cmp(&number.0));
    found.ok()
}

/// The live rule with this number.
pub(crate) fn rule_of(rules: &Rules, number: RuleId) -> Option<&Rule>
    ensures { option_map (λ r. r.now) result ≡ rule_of rules.now.rules number }
{
    match place_of(rules, number) {
        Some(place) => Some(&rules.rules.as_slice()[place]),
        None => None,
    }
}

/// The rules without the one of this number, and that one.
pub(crate) fn without_rule(rules: Rules, number: RuleId) -> (Rules, Option<Rule>)
    ensures rules { result.0.rules ≡ filter (λ r. not (r.number.0 == number.0)) rules.rules }
    ensures gone { result.1 ≡ rule_of rules.rules number }
{
    let Some(place) = place_of(&rules, number) else {
        return (rules, None);
    };
    let mut rules = rules.rules.into_vec();
    let gone = rules.remove(place);
    let rules = Rules {
        rules: RuleList::from_vec(rules),
    };
    (rules, Some(gone))
}
