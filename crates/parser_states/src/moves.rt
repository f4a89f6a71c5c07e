//! The moves of all states.

ghost use Rattle.std.specs.Prelude.{◌≡◌, ◌≤◌, ◌<◌, length, IfOk, OnOk, Some, slice_get};
ghost use Rattle.std.specs.List.Sorted.{IsStrictlySortedBy};
ghost use Rattle.item_sets.specs.Orders.{item_cmp};
ghost use Rattle.parser_states.specs.Known.{known_moves, no_moves};
ghost use Rattle.parser_states.specs.Parts.{part_of, IsPartWithin};
ghost use Rattle.parser_states.specs.Moves.{AddsItems, AddsMoves};

use crate::rows::{Part, part_between};
use forest::SymbolId;
use item_sets::{Item, Kernel};
use live_graph::NoMemory;
use std::alloc::Global;

/// The target of a move that was not taken yet.
pub(crate) const UNKNOWN: u32 = 0;

/// The moves of all states, those of one state together, by lists for each thing.
#[derive(Drop)]
pub(crate) struct MoveLists {
    /// The symbol of each move. Those of one state ascend.
    pub(crate) symbols: Vec<SymbolId>,
    /// Where among the items those behind the move stand.
    pub(crate) behind: Vec<Part>,
    /// One more than the number of the state behind the move, or `UNKNOWN`.
    pub(crate) targets: Vec<u32>,
    /// The items behind all moves, those of one move together.
    pub(crate) items: Vec<Item>,
}

/// Appends the items.
fn add_items(items: &mut Vec<Item>, more: &[Item]) -> Result<Part, NoMemory>
    ensures { IfOk result (AddsItems more.now items.old.items items.new.items) }
{
    let first = items.len();
    for item in more {
        items.push(*item)?;
    }
    part_between(first, items.len())
}

impl MoveLists {
    pub(crate) fn new(alloc: Global) -> MoveLists
        ensures { known_moves result ≡ no_moves }
    {
        MoveLists {
            symbols: Vec::new(alloc),
            behind: Vec::new(alloc),
            targets: Vec::new(alloc),
            items: Vec::new(alloc),
        }
    }

    pub(crate) fn clear(&mut self)
        ensures { known_moves self.new ≡ no_moves }
    {
        self.symbols.clear();
        self.behind.clear();
        self.targets.clear();
        self.items.clear();
    }

    /// Appends the moves, whose targets are not known.
    pub(crate) fn add(&mut self, moves: &[(SymbolId, Kernel)]) -> Result<Part, NoMemory>
        ensures adds { IfOk result (AddsMoves moves.now (known_moves self.old) (known_moves self.new)) }
        ensures grows { length self.old.symbols.items ≤ length self.new.symbols.items }
    {
        let first = self.symbols.len();
        for entry in moves {
            let part = add_items(&mut self.items, entry.1.items())?;
            self.behind.push(part)?;
            self.targets.push(UNKNOWN)?;
            self.symbols.push(entry.0)?;
        }
        let whole = part_between(first, self.symbols.len())?;
        Ok(whole)
    }

    /// The kernel behind the move at this place.
    pub(crate) fn kernel_behind(&self, part: Part) -> Result<Kernel, NoMemory>
        requires within { IsPartWithin part (length self.now.items.items) }
        requires ascends { IsStrictlySortedBy item_cmp (part_of part self.now.items.items) }
        ensures { IfOk result (λ kernel. kernel ≡ part_of part self.now.items.items) }
    {
        Kernel::of(
            *self.items.allocator(),
            &self.items[part.first as usize..part.past as usize],
        )
    }
}
