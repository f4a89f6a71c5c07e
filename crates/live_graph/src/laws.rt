//! What is true of the cost of graphs, whoever keeps them.

ghost use Rattle.std.specs.Prelude.{◌≡◌, ℕ, [], List};
ghost use Rattle.edit_log.specs.History.{Grammar};
ghost use Rattle.item_sets.specs.declared.item.Item.{Item};
ghost use Rattle.isg_states.specs.declared.scan_key.ScanKey.{ScanKey};
ghost use Rattle.live_graph.specs.Meaning.{GraphMeaning};
ghost use Rattle.live_graph.specs.Cost.{IsCostOf, RisesAsCost};
ghost use Rattle.live_graph.specs.Asking.{AsksScan, AsksKernel};
ghost use Rattle.live_graph.specs.Kept.{Alone, means_alone};

use crate::graph::Graph;

/// A state that is asked for adds to the steps what it adds to the cost.
pub fn scan_raises_cost<G: Graph>()
    ensures { (old new : GraphMeaning G.Base) (key : ScanKey) (before after : ℕ) → AsksScan old key new before after → RisesAsCost old new before after }
{}

/// A kernel that is asked for adds to the steps what it adds to the cost.
pub fn kernel_raises_cost<G: Graph>()
    ensures { (old new : GraphMeaning G.Base) (key : List Item) (before after : ℕ) → AsksKernel old key new before after → RisesAsCost old new before after }
{}

/// Two rises, one after the other, are one.
pub fn rises_join<G: Graph>()
    ensures { (old middle new : GraphMeaning G.Base) (before between after : ℕ) → RisesAsCost old middle before between → RisesAsCost middle new between after
        → RisesAsCost old new before after }
{}

/// A graph has one cost.
pub fn one_graph_cost<G: Graph>()
    ensures { (graph : GraphMeaning G.Base) (one other : ℕ) → IsCostOf graph one → IsCostOf graph other → one ≡ other }
{}

/// The graph of one user costs nothing before it was asked for anything, and expands all that it is asked for.
pub fn alone_expands_all()
    ensures nothing { (grammar : Grammar) → IsCostOf (means_alone (record { grammar = grammar; scans = []; kernels = [] })) 0 }
    ensures scans { (graph : Alone) → (means_alone graph).scans.own ≡ (means_alone graph).scans.keys }
    ensures kernels { (graph : Alone) → (means_alone graph).kernels.own ≡ (means_alone graph).kernels.keys }
{}
