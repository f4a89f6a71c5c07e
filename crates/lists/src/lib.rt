//! Lists of one kind of value, which contracts see as plain lists.
#![tactic(auto)]

mod list;

pub use list::ListOf;
