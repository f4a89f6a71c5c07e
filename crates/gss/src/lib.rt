//! The graph-structured stack of a parser.
//!
//! A node is a state at a position of the text, and a link leads from a node down to one that its parser has
//! read a symbol on from, so the stacks of all parsers lie in one graph as the paths down from its nodes.
//! `StackGraph` has nodes and links by numbers alone; `Stacks` is the same by kernels. `Trails` walks down the links
//! of a graph, and the paths of `Stacks` are its walks made into a list.
#![tactic(auto)]

use std::alloc::AllocError;

mod part;
mod paths;
mod rows;
mod stack_graph;
mod stacks;
mod trails;

pub use paths::Path;
pub use stack_graph::{Edge, Place, StackGraph};
pub use stacks::{LinkId, NodeId, Stacks};
pub use trails::{Trails, Walk};

/// Memory ran out.
pub type NoMemory = AllocError;
