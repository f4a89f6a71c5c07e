//! Nodes of a forest with their splits.

ghost use Rattle.std.specs.Prelude.{◌≡◌, ◌≤◌, [], ◌∷◌, ◌++◌, length, IsOk, IfOk, OnOk, OnErr};

use crate::NoMemory;
use crate::rules::RuleId;
use crate::symbols::SymbolId;
use lists::ListOf;
use smallvec::SmallVec;
use std::alloc::{AllocError, Global};
use std::marker::Model;
use std::slice;

/// The places between tokens where the parts of a split begin and end: `m + 1` places for `m` parts. A contract
/// sees the list of them. Up to four take no memory beside the value.
#[derive(Debug, Drop)]
pub struct Cuts {
    /// The places from left to right.
    items: SmallVec<u32, 4>,
}

impl Model for Cuts {
    ghost use Rattle.std.specs.Prelude.{List, ℕ};

    ghost Value = { List ℕ };

    ghost view = { λ c. c.items.items };
}

impl Cuts {
    /// No cuts yet.
    pub fn new(alloc: Global) -> Cuts
        ensures { result ≡ [] }
    {
        Cuts {
            items: SmallVec::new(alloc),
        }
    }

    /// The list of these cuts.
    pub fn of(alloc: Global, cuts: &[u32]) -> Result<Cuts, NoMemory>
        ensures items { IfOk result (λ list. list ≡ cuts.now) }
        ensures few { length cuts.now ≤ 4 → IsOk result }
    {
        let items = SmallVec::from_slice(alloc, cuts)?;
        Ok(Cuts { items })
    }

    /// The list of these cuts. Takes no memory.
    pub fn from_vec(items: Vec<u32>) -> Cuts
        ensures { result ≡ items.items }
    {
        Cuts {
            items: SmallVec::from_vec(items),
        }
    }

    /// Puts one more cut at the end.
    pub fn push(&mut self, cut: u32) -> Result<(), NoMemory>
        ensures added { OnOk result (self.new ≡ self.old ++ cut ∷ []) }
        ensures refused { OnErr result (self.new ≡ self.old) }
    {
        if self.items.push(cut).is_err() {
            return Err(AllocError);
        }
        Ok(())
    }

    pub fn as_slice(&self) -> &[u32]
        ensures { result.now ≡ self.now }
    {
        self.items.as_slice()
    }
}

impl PartialEq for Cuts {
    ghost use Rattle.std.specs.Cmp.Lexicographic.{pointwise, lists_per};
    ghost use Rattle.std.specs.Cmp.{partial_equiv_from_equiv, nat_eq_equiv};
    ghost use Rattle.std.specs.Prelude.{nat_eq};

    ghost eq = { λ a b. pointwise nat_eq a b };

    ghost laws = { lists_per (partial_equiv_from_equiv nat_eq_equiv) };

    fn eq(&self, other: &Cuts) -> bool {
        self.as_slice() == other.as_slice()
    }
}

impl Eq for Cuts {
    ghost use Rattle.std.specs.Cmp.Lexicographic.{lists_equiv};
    ghost use Rattle.std.specs.Cmp.{nat_eq_equiv};

    ghost laws = { lists_equiv nat_eq_equiv };
}

/// A rule with the cuts between its parts. An empty rule has the one cut where it stands.
#[derive(PartialEq, Eq, Debug, Drop)]
pub struct Split {
    /// The rule whose right side the parts are.
    pub rule: RuleId,
    /// Where the parts begin and end: one more than the right side has symbols.
    pub cuts: Cuts,
}

/// Where splits lie: in the value while there is one, as in most nodes, and else in a vector.
#[derive(Debug, Drop)]
enum SplitStore {
    One(Split),
    Many(Vec<Split>),
}

/// The splits of a node. A contract sees the list of them. One alone takes no memory beside the value.
#[derive(Debug, Drop)]
pub struct Splits {
    /// The splits, one or many.
    store: SplitStore,
}

impl Model for Splits {
    ghost use Rattle.std.specs.Prelude.{List};
    ghost use Rattle.forest.specs.declared.nodes.Split.{Split};
    ghost use Rattle.forest.specs.SplitStores.{splits_in};

    ghost Value = { List Split };

    ghost view = { λ s. splits_in s.store };
}

impl Splits {
    /// The list of this one split. Takes no memory.
    pub fn of_one(split: Split) -> Splits
        ensures { result ≡ split ∷ [] }
    {
        Splits {
            store: SplitStore::One(split),
        }
    }

    /// The list of these splits. Takes no memory.
    pub fn from_vec(items: Vec<Split>) -> Splits
        ensures { result ≡ items.items }
    {
        Splits {
            store: SplitStore::Many(items),
        }
    }

    pub fn as_slice(&self) -> &[Split]
        ensures { result.now ≡ self.now }
    {
        match &self.store {
            SplitStore::One(split) => slice::from_ref(split),
            SplitStore::Many(items) => items.as_slice(),
        }
    }
}

impl PartialEq for Splits {
    ghost use Rattle.std.specs.Cmp.Lexicographic.{pointwise, lists_per};
    ghost use Rattle.std.specs.Cmp.{partial_equiv_from_equiv};
    ghost use Rattle.forest.specs.Equality.{split_eq, split_equiv};

    ghost eq = { λ a b. pointwise split_eq a b };

    ghost laws = { lists_per (partial_equiv_from_equiv split_equiv) };

    fn eq(&self, other: &Splits) -> bool {
        self.as_slice() == other.as_slice()
    }
}

impl Eq for Splits {
    ghost use Rattle.std.specs.Cmp.Lexicographic.{lists_equiv};
    ghost use Rattle.forest.specs.Equality.{split_equiv};

    ghost laws = { lists_equiv split_equiv };
}

/// A span: a symbol and the tokens from one place to another that it derives, with its splits.
#[derive(PartialEq, Eq, Debug, Drop)]
pub struct Node {
    /// The symbol that derives the tokens.
    pub symbol: SymbolId,
    /// The place between tokens where they begin, from 0 on.
    pub from: u32,
    /// The place between tokens where they end, which is `from` where there are none.
    pub to: u32,
    /// The ways to derive them, each by a rule whose left side the symbol is.
    pub splits: Splits,
}

/// The nodes of a forest.
pub type Nodes = ListOf<Node>;
