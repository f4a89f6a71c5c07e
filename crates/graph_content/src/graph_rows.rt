//! Rows of grammars as the content of a shared table.

use pin_rule::content::Content;

/// The content of a table whose log is the history of a grammar. Its rows are keys of item sets and scanner
/// states, with their expansions in the grammar of the log.
pub struct GraphRows;

impl Content for GraphRows {
    ghost use Rattle.std.specs.Prelude.{[], refl};
    ghost use Rattle.graph_content.specs.Contents.{IsLogOf, IsLawfulLog, FitsLog};

    ghost lawful = { IsLawfulLog };

    ghost fits = { FitsLog };

    ghost empty = { let none : IsLogOf [] [] = record { is_history = tt; entries = refl } in ([], none) };
}
