//! Item sets of a grammar: kernels, and what they expand to.
//!
//! The states of a parser are the kernels of viable prefixes, and its tables are their expansions, each made
//! when it is needed. `specs/Prefixes` says without any automaton which items belong to a prefix, and
//! `specs/Expansions` what a kernel expands to. The laws tie the two.
#![tactic(auto)]

use std::alloc::AllocError;

mod closure;
mod expanding;
mod expansion;
mod item;
mod kernel;
mod laws;
mod symbol_set;
mod walk;

pub use expanding::expand;
pub use expansion::{Expansion, Moves, Reductions, has_move};
pub use item::Item;
pub use kernel::Kernel;
pub use laws::{
    closure_is_valid, kernels_are_items, moves_are_items, moves_are_kernels, one_cost,
    one_expansion, one_kernel, start_is_kernel,
};

/// Memory ran out.
pub type NoMemory = AllocError;
