//! Expansions: the moves and the reductions of a kernel.

ghost use Rattle.std.specs.Prelude.{◌↔◌, List, Contains, IsTrue};
ghost use Rattle.std.specs.List.Sorted.{IsStrictlySortedBy};
ghost use Rattle.std.proofs.lemmas.Map.Keys.{IsStrictlySortedBy-prop};
ghost use Rattle.item_sets.specs.declared.item.Item.{Item};
ghost use Rattle.item_sets.specs.Orders.{move_cmp, reduction_cmp};

use crate::kernel::Kernel;
use forest::{RuleId, SymbolId};
use lists::ListOf;

/// Symbols, each with the kernel behind it.
pub type Moves = ListOf<(SymbolId, Kernel)>;

/// The numbers of rules that are finished. Number 0 accepts the text.
pub type Reductions = ListOf<RuleId>;

/// What a kernel expands to: its moves, strictly ascending by symbol, and its reductions, strictly ascending
/// by number.
#[derive(Drop)]
pub struct Expansion {
    /// Each symbol that stands after a dot, with the kernel behind it.
    pub moves: Moves,
    /// The rules of items whose dots stand at the end.
    pub reductions: Reductions,
    pub ghost moves_ascend: { IsStrictlySortedBy move_cmp moves } by { IsStrictlySortedBy-prop move_cmp moves },
    pub ghost reductions_ascend: { IsStrictlySortedBy reduction_cmp reductions } by { IsStrictlySortedBy-prop reduction_cmp reductions },
}

/// Whether some move is on the symbol, by binary search.
pub fn has_move(expansion: &Expansion, symbol: SymbolId) -> bool
    ensures { IsTrue result ↔ ((upper : List Item) × Contains expansion.now.moves (symbol, upper)) }
{
    let found = expansion
        .moves
        .as_slice()
        .binary_search_by(|entry| entry.0.0.cmp(&symbol.0));
    found.is_ok()
}
