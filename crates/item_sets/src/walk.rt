//! A walk over the items of a closure: each is met once.

ghost use Rattle.std.specs.Prelude.{◌≡◌, ◌+◌, [], ◌∷◌, ◌++◌, List, OnOk, IfOk, IfSome, Contains, Some, option_map, slice_get};
ghost use Rattle.std.specs.List.Sorted.{IsStrictlySortedBy};
ghost use Rattle.forest.specs.Orders.{rule_cmp};
ghost use Rattle.edit_log.specs.Facts.{IsWellFormed};
ghost use Rattle.edit_log.specs.Lookups.{rule_of};
ghost use Rattle.item_sets.specs.declared.item.Item.{Item};
ghost use Rattle.item_sets.specs.Prefixes.{IsItem, item_at};
ghost use Rattle.item_sets.specs.Walks.{next_of, IsWalk, Extends, put_at};

use crate::NoMemory;
use crate::item::Item;
use crate::kernel::Kernel;
use crate::symbol_set::SymbolSet;
use edit_log::Grammar;
use forest::{Rule, RuleId, START, SymbolId};
use std::alloc::Global;
use std::sync::ledger::Ledger;
use steps::Steps;

/// What the items that were met have after their dots.
#[derive(Drop)]
pub(crate) struct Walk {
    /// Each symbol once. Its place tells whether its rules were met too, and where its move stands.
    pub(crate) symbols: SymbolSet,
    /// For each symbol, in the same order, the items whose dots moved past it.
    pub(crate) moves: Vec<(SymbolId, Kernel)>,
    /// The rules of the items with nothing after their dots, in the order in which these were met.
    pub(crate) reductions: Vec<RuleId>,
    /// Where rules are looked for first: so far below their numbers.
    shift: usize,
}

/// The place of the live rule with this number.
fn place_of(rules: &[Rule], number: RuleId) -> Option<usize>
    requires { IsStrictlySortedBy rule_cmp rules.now }
    ensures { option_map (λ place. slice_get rules.now place) result ≡ option_map Some (rule_of rules.now number) }
{
    let found = rules.binary_search_by(|live| live.number.0.cmp(&number.0));
    found.ok()
}

/// The rule at the place, if it has the number.
fn rule_at(rules: &[Rule], place: usize, number: RuleId) -> Option<&Rule>
    requires { IsStrictlySortedBy rule_cmp rules.now }
    ensures { IfSome result (λ r. Some r.now ≡ rule_of rules.now number) }
{
    let rule = rules.get(place)?;
    if rule.number.0 == number.0 {
        Some(rule)
    } else {
        None
    }
}

/// The live rule with this number. `shift` is by how much the number of the last rule that was asked lay above its
/// place. Rules that no dropped one lies between have the same, and are found at once.
fn rule_of<'g>(grammar: &'g Grammar, number: RuleId, shift: &mut usize) -> Option<&'g Rule>
    ensures { option_map (λ r. r.now) result ≡ rule_of grammar.now.grammar.rules number }
{
    let rules = grammar.rules().rules.as_slice();
    let guess = (number.0 as usize).wrapping_sub(*shift);
    if let Some(rule) = rule_at(rules, guess, number) {
        return Some(rule);
    }
    match place_of(rules, number) {
        Some(place) => {
            *shift = (number.0 as usize).wrapping_sub(place);
            Some(&rules[place])
        }
        None => None,
    }
}

/// The symbol after the item's dot.
fn next_of(grammar: &Grammar, item: Item, shift: &mut usize) -> Option<SymbolId>
    ensures { result ≡ next_of grammar.now.grammar.rules item }
{
    if item.rule.0 == 0 {
        return if item.dot == 0 { Some(START) } else { None };
    }
    let rule = rule_of(grammar, item.rule, shift)?;
    rule.right.as_slice().get(item.dot as usize).copied()
}

/// Puts the item into the move at this place. A place behind the others is that of a new move, on the symbol.
fn put_at(
    moves: &mut Vec<(SymbolId, Kernel)>,
    place: usize,
    symbol: SymbolId,
    item: Item,
) -> Result<(), NoMemory>
    ensures { OnOk result (moves.new.items ≡ put_at place symbol item moves.old.items) }
{
    if place < moves.len() {
        moves[place].1.insert(item)?;
        return Ok(());
    }
    let kernel = Kernel::of_one(*moves.allocator(), item);
    moves.push((symbol, kernel))?;
    Ok(())
}

impl Walk {
    pub(crate) fn new(alloc: Global) -> Walk
        ensures symbols { result.symbols ≡ [] }
        ensures moves { result.moves.items ≡ [] }
        ensures reductions { result.reductions.items ≡ [] }
    {
        Walk {
            symbols: SymbolSet::new(alloc),
            moves: Vec::new(alloc),
            reductions: Vec::new(alloc),
            shift: 1,
        }
    }

    /// Meets one more item.
    pub(crate) fn visit<L: Ledger>(
        &mut self,
        grammar: &Grammar,
        item: Item,
        steps: &mut Steps<L>,
    ) -> Result<(), NoMemory>
        requires formed { IsWellFormed grammar.now.grammar }
        requires item { IsItem grammar.now.grammar.rules item }
        ensures walk { OnOk result ((items : List Item)
            → IsWalk grammar.now.grammar.rules items self.old.symbols self.old.moves.items self.old.reductions.items
            → IsWalk grammar.now.grammar.rules (items ++ item ∷ []) self.new.symbols self.new.moves.items self.new.reductions.items) }
        ensures extends { OnOk result (Extends self.old.symbols self.new.symbols) }
        ensures steps { steps.new ≡ steps.old + 1 }
    {
        steps.take();
        let Some(symbol) = next_of(grammar, item, &mut self.shift) else {
            self.reductions.push(item.rule)?;
            return Ok(());
        };
        let place = self.symbols.place_of(symbol)?;
        let item = Item {
            rule: item.rule,
            dot: item.dot + 1,
        };
        put_at(&mut self.moves, place, symbol, item)?;
        Ok(())
    }
}
