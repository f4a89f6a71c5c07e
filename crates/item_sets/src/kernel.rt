//! Kernels: the items that tell one state of a parser from another.

ghost use Rattle.std.specs.Prelude.{◌≡◌, [], ◌∷◌, ◌++◌, IsTrue, IfOk, OnOk};
ghost use Rattle.std.specs.List.Sorted.{IsStrictlySortedBy};
ghost use Rattle.item_sets.specs.Orders.{item_cmp, with_item};
ghost use Rattle.item_sets.specs.Prefixes.{start_kernel};

use crate::NoMemory;
use crate::item::Item;
use smallvec::SmallVec;
use std::alloc::{AllocError, Global};
use std::hash::{Hash, Hasher};
use std::marker::Model;

/// Items that strictly ascend by rule and then by dot. A contract sees the list of them. Up to four take no
/// memory beside the value.
#[derive(Drop)]
pub struct Kernel {
    /// The items in this order, none twice.
    items: SmallVec<Item, 4>,
}

impl Model for Kernel {
    ghost use Rattle.std.specs.Prelude.{List};
    ghost use Rattle.std.specs.List.Sorted.{IsStrictlySortedBy};
    ghost use Rattle.item_sets.specs.declared.item.Item.{Item};
    ghost use Rattle.item_sets.specs.Orders.{item_cmp};

    ghost Value = { List Item };

    ghost view = { λ kernel. kernel.items.items };

    ghost invariant = { λ kernel. IsStrictlySortedBy item_cmp kernel.items.items };
}

/// Whether the item comes behind all of these.
fn is_behind(items: &[Item], item: Item) -> bool
    requires { IsStrictlySortedBy item_cmp items.now }
    ensures { IsTrue result → items.now ++ item ∷ [] ≡ with_item item items.now }
{
    match items.last() {
        Some(last) => *last < item,
        None => true,
    }
}

impl Kernel {
    /// The kernel that a parse begins with.
    pub fn start(alloc: Global) -> Kernel
        ensures { result ≡ start_kernel }
    {
        Kernel::of_one(alloc, Item::default())
    }

    /// The kernel of one item.
    pub fn of_one(alloc: Global, item: Item) -> Kernel
        ensures { result ≡ item ∷ [] }
    {
        let mut items = SmallVec::new(alloc);
        items.push_reserved(item);
        Kernel { items }
    }

    /// The kernel of these items.
    pub fn of(alloc: Global, items: &[Item]) -> Result<Kernel, NoMemory>
        requires { IsStrictlySortedBy item_cmp items.now }
        ensures { IfOk result (λ kernel. kernel ≡ items.now) }
    {
        Ok(Kernel {
            items: SmallVec::from_slice(alloc, items)?,
        })
    }

    /// Puts one more item at its place. One that is there already stays as it is.
    pub(crate) fn insert(&mut self, item: Item) -> Result<(), NoMemory>
        ensures { OnOk result (self.new ≡ with_item item self.old) }
    {
        if is_behind(self.items.as_slice(), item) {
            self.items.push(item)?;
            return Ok(());
        }
        let Err(place) = self.items.as_slice().binary_search(&item) else {
            return Ok(());
        };
        self.items.insert(place, item)?;
        Ok(())
    }

    pub fn items(&self) -> &[Item]
        ensures items { result.now ≡ self.now }
        ensures ascending { IsStrictlySortedBy item_cmp self.now }
    {
        self.items.as_slice()
    }
}

impl Clone for Kernel {
    ghost is_clone = { λ kernel copy. copy ≡ kernel };

    fn clone(&self) -> Result<Kernel, AllocError> {
        Kernel::of(*self.items.allocator(), self.items())
    }
}

impl PartialEq for Kernel {
    ghost use Rattle.std.specs.Cmp.Lexicographic.{pointwise, lists_per};
    ghost use Rattle.std.specs.Cmp.{partial_equiv_from_equiv};
    ghost use Rattle.item_sets.specs.Orders.{item_eq, item_equiv};

    ghost eq = { λ a b. pointwise item_eq a b };

    ghost laws = { lists_per (partial_equiv_from_equiv item_equiv) };

    fn eq(&self, other: &Kernel) -> bool {
        self.items() == other.items()
    }
}

impl Eq for Kernel {
    ghost use Rattle.std.specs.Cmp.Lexicographic.{lists_equiv};
    ghost use Rattle.item_sets.specs.Orders.{item_equiv};

    ghost laws = { lists_equiv item_equiv };
}

impl Hash for Kernel {
    ghost use Rattle.std.specs.Hash as fed;
    ghost use Rattle.std.specs.Hash.{items_Alike};
    ghost use Rattle.item_sets.specs.contracts.item.ItemHash.TheImpl.Laws.{respects_eq-law};

    ghost hash_input = { λ k. fed.slice ⟦<Item as Hash>⟧.hash_input k };

    ghost respects_eq = { (items_Alike (record { fed = respects_eq-law })).fed };

    fn hash<H: Hasher>(&self, state: &mut H) {
        self.items().hash(state);
    }
}
