//! Laws of prefixes, kernels and expansions.

ghost use Rattle.std.specs.Prelude.{◌≡◌, ◌↔◌, ◌++◌, ◌∷◌, [], ℕ, List, Contains};
ghost use Rattle.forest.specs.declared.symbols.SymbolId.{SymbolId};
ghost use Rattle.forest.specs.declared.rules.Rule.{Rule};
ghost use Rattle.edit_log.specs.History.{Grammar};
ghost use Rattle.edit_log.specs.Facts.{IsWellFormed};
ghost use Rattle.item_sets.specs.declared.item.Item.{Item};
ghost use Rattle.item_sets.specs.declared.expansion.Expansion.{Expansion};
ghost use Rattle.item_sets.specs.Prefixes.{IsValid, IsViable, IsKernelOf, AreItems, start_kernel};
ghost use Rattle.item_sets.specs.Expansions.{InClosure, IsExpansionOf, IsCost};

/// A prefix has one kernel.
pub fn one_kernel()
    ensures { (rules : List Rule) (g : List SymbolId) (a b : List Item) → IsKernelOf rules g a → IsKernelOf rules g b → a ≡ b }
{}

/// The start kernel is that of the empty prefix.
pub fn start_is_kernel()
    ensures { (rules : List Rule) → IsKernelOf rules [] start_kernel }
{}

/// The kernel of a prefix has items of the rules.
pub fn kernels_are_items()
    ensures { (rules : List Rule) (g : List SymbolId) (kernel : List Item) → IsKernelOf rules g kernel → AreItems rules kernel }
{}

/// The closure of the kernel of a prefix has exactly the items that are valid for the prefix.
pub fn closure_is_valid()
    ensures { (grammar : Grammar) → IsWellFormed grammar → (g : List SymbolId) (kernel : List Item) → IsKernelOf grammar.rules g kernel
        → (item : Item) → InClosure grammar.rules (Contains kernel) item ↔ IsValid grammar.rules g item }
{}

/// The expansion of the kernel of a prefix has a move on exactly those symbols that make a longer viable prefix, and behind
/// each the kernel of that prefix.
pub fn moves_are_kernels()
    ensures { (grammar : Grammar) → IsWellFormed grammar → (g : List SymbolId) (kernel : List Item) → IsKernelOf grammar.rules g kernel
        → (expansion : Expansion) → IsExpansionOf grammar.rules kernel expansion → (x : SymbolId) (upper : List Item)
        → Contains expansion.moves (x, upper) ↔ (IsViable grammar.rules (g ++ x ∷ []) × IsKernelOf grammar.rules (g ++ x ∷ []) upper) }
{}

/// What is behind a move is made of items of the rules.
pub fn moves_are_items()
    ensures { (rules : List Rule) (kernel : List Item) (expansion : Expansion) → IsExpansionOf rules kernel expansion
        → (x : SymbolId) (upper : List Item) → Contains expansion.moves (x, upper) → AreItems rules upper }
{}

/// A kernel has one expansion.
pub fn one_expansion()
    ensures { (rules : List Rule) (kernel : List Item) (a b : Expansion) → IsExpansionOf rules kernel a → IsExpansionOf rules kernel b
        → (a.moves ≡ b.moves) × (a.reductions ≡ b.reductions) }
{}

/// A kernel has one cost.
pub fn one_cost()
    ensures { (rules : List Rule) (kernel : List Item) (a b : ℕ) → IsCost rules kernel a → IsCost rules kernel b → a ≡ b }
{}
