//! A value on the heap that several owners share by parts of one right.
//!
//! A [`loan::Loan`] of a new value has the whole right, 4,294,967,296 parts.
//! It can be cut into two loans and two loans of one value can be joined, and
//! neither takes memory nor can be refused: there is no count beside the
//! value. Whoever has gathered the whole right again gives the memory back.
#![tactic(auto)]

mod hold;
mod lending;
mod lent;
pub mod limits;
pub mod loan;
mod loose;
#[cfg(test)]
mod tests;

/// There was no memory.
pub type NoMemory = std::alloc::AllocError;
