//! The states that a parser has met, by numbers of their own.
//!
//! A state is a kernel. It gets a number, and the graph is asked for it, when a move leads to it for the first time.
//! Then its moves and its reductions are kept in lists that all states share, so that a look at them asks nothing.
#![tactic(auto)]

mod asking;
mod moves;
mod reduction;
mod rows;
mod searches;
mod states;
mod table;

pub use reduction::Reduction;
pub use states::States;
