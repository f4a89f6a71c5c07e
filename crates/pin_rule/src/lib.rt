//! One lock-free table for rows of any content, and the rule that every step
//! on it keeps.
//!
//! A [`hand::Hand`] is one seat at the table. It has one call per kind of
//! step, and each makes one atomic operation on one word. The rule `Lawful`
//! holds between any two steps, whatever the other seats do.
#![tactic(auto)]

pub mod choosers;
pub mod content;
mod editing;
mod giving_up;
pub mod hand;
pub mod laws;
pub mod limits;
mod opening;
mod operations;
pub mod ops;
mod pins;
mod rule;
mod seating;
pub mod sizes;
mod starting;
mod starts;
mod stepping;
#[cfg(test)]
mod tests;
pub mod view;
mod view_changes;

/// There was no memory.
pub type NoMemory = std::alloc::AllocError;
