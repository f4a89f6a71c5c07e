//! The forest of a text, by a graph-structured stack over item sets that a graph expands by need.
//!
//! A node is an item set at a place between tokens, and a link joins two nodes by a symbol that derives what lies between
//! them. Reductions are found by walks down links, each once, from one queue of links. Spans with their splits are packed
//! as they are found, and the forest is what is reached from START among them.
#![tactic(auto)]

mod laws;
mod level;
mod levels;
mod limits;
mod linking;
mod nodes;
mod parse_error;
mod parsed;
mod parser;
mod parsing;
mod queue;
mod reducing;
mod shifting;
mod walk;
mod walking;

pub use laws::{one_answer, one_last_viable, one_size, within_or_above};
pub use limits::{SIZE_LIMIT, limits_of_parses};
pub use parse_error::ParseError;
pub use parsed::Parsed;
pub use parser::Parser;
pub use parsing::parse;
