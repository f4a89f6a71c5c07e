//! Graphs of expansions by need: what a scanner and a parser ask, and what keeps the answers.
//!
//! A graph is asked for a key, which is a state of the scanner or a kernel, and answers where it leads. What is
//! generic over [`Graph`] is proved once for every keeper. [`PrivateGraph`] is the keeper of one user, and
//! [`SharedGraph`] one over a page of a table that many share: it finds there what others expanded, and puts there
//! what it expands itself.
#![tactic(auto)]

use std::alloc::AllocError;

mod answer;
mod catching;
mod counting;
mod finding;
mod graph;
mod kept;
mod laws;
mod naming;
mod obtaining;
mod offering;
mod origin;
mod private_graph;
mod shared_graph;
mod shared_kept;
mod tally;

pub use catching::catch_up;
pub use graph::Graph;
pub use laws::{
    alone_expands_all, kernel_raises_cost, one_graph_cost, rises_join, scan_raises_cost,
};
pub use origin::Origin;
pub use private_graph::PrivateGraph;
pub use shared_graph::SharedGraph;
pub use tally::{Tallies, Tally};

/// Memory ran out.
pub type NoMemory = AllocError;
