//! The parts of a row.

ghost use Rattle.std.specs.Prelude.{◌≡◌, ℕ, List, map};
ghost use Rattle.item_sets.specs.declared.item.Item.{Item};
ghost use Rattle.row_coding.specs.Words.{item_word};
ghost use Rattle.row_coding.specs.Rows.{Key, row_words};
ghost use Rattle.graph_content.specs.Parts.{IsRow, name_words};

/// The words of the row's key behind its first: the items, or the marks.
pub(crate) fn names_in(row: &[u64]) -> &[u64]
    requires { IsRow row.now }
    ensures { (key : Key) (payload : List ℕ) → row.now ≡ row_words key payload → result.now ≡ name_words key }
{
    let end = 2 + row[0] as usize;
    &row[3..end]
}

/// The words of the row's payload.
pub(crate) fn payload_in(row: &[u64]) -> &[u64]
    requires { IsRow row.now }
    ensures { (key : Key) (payload : List ℕ) → row.now ≡ row_words key payload → result.now ≡ payload }
{
    let start = 2 + row[0] as usize;
    &row[start..]
}
