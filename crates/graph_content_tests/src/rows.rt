//! Rows, whether they are kept, and what is told of them.

ghost use Rattle.std.specs.Prelude.{◌≡◌, ◌∷◌, ◌++◌, IfOk, length};
ghost use Rattle.graph_content.specs.Rows.{Fits};

use graph_content::Modify;
use std::alloc::{AllocError, Global};

/// The row of a key and a payload.
pub(crate) fn row_of(alloc: Global, key: &[u64], payload: &[u64]) -> Result<Vec<u64>, AllocError>
    ensures { IfOk result (λ row. row.items ≡ length key.now ∷ length payload.now ∷ (key.now ++ payload.now)) }
{
    let mut row = Vec::new(alloc);
    row.push(key.len() as u64)?;
    row.push(payload.len() as u64)?;
    row.extend_from_slice(key)?;
    row.extend_from_slice(payload)?;
    Ok(row)
}

/// Whether the row is kept.
pub(crate) fn keep(modify: &mut Modify<'_>, row: &[u64]) -> bool
    requires { Fits modify.old.grammar row.now }
    ensures { modify.new.grammar ≡ modify.old.grammar }
{
    modify.keep(row)
}

/// How many rows were kept and refused, and how many of them wrongly.
#[derive(Drop)]
pub(crate) struct Told {
    /// How many rows were kept.
    pub(crate) kept: u32,
    /// How many rows were refused.
    pub(crate) refused: u32,
    /// How many of both were not as they should be.
    pub(crate) wrong: u32,
}

impl Told {
    pub(crate) fn new() -> Told {
        Told {
            kept: 0,
            refused: 0,
            wrong: 0,
        }
    }

    /// One row more: whether it was kept, and whether its key and its expansion stay.
    pub(crate) fn add(&mut self, kept: bool, stays: bool) {
        if kept {
            self.kept = self.kept.saturating_add(1);
        } else {
            self.refused = self.refused.saturating_add(1);
        }
        if kept != stays {
            self.wrong = self.wrong.saturating_add(1);
        }
    }
}

/// Whether the row that a key has in the next grammar, if it has one there, is this one.
pub(crate) fn stays(row: &[u64], next: Option<Vec<u64>>) -> bool {
    match next {
        Some(next) => next.as_slice() == row,
        None => false,
    }
}
