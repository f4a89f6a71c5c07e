//! Which kind of state a row is of.

ghost use Rattle.std.specs.Prelude.{◌≡◌, ℕ, List};
ghost use Rattle.row_coding.specs.Rows.{Key, kind_of_key, row_words};

/// The kinds of states that have rows.
#[derive(Clone, Copy, PartialEq, Eq)]
pub enum Kind {
    /// An item set of the parser.
    Items,
    /// A state of the scanner.
    Scan,
}

/// The kind of a row, by the first word of its key. It is told of any list of words.
pub fn kind_of(row: &[u64]) -> Kind
    ensures { (key : Key) (payload : List ℕ) → row.now ≡ row_words key payload → result ≡ kind_of_key key }
{
    match row.get(2) {
        Some(1) => Kind::Items,
        _ => Kind::Scan,
    }
}
