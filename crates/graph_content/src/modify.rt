//! The choice of the rows that an edit leaves.

ghost use Rattle.std.specs.Prelude.{◌≡◌, ◌↔◌, false, IsTrue};
ghost use Rattle.edit_log.specs.History.{Grammar as AGrammar};
ghost use Rattle.row_coding.specs.Rows.{Key, kind_of_key};
ghost use Rattle.graph_content.specs.Affected.{IsUnaffected, IsAffected};
ghost use Rattle.graph_content.specs.Changes.{IsChange};
ghost use Rattle.graph_content.specs.Rows.{Fits, IsRowOf};
ghost use Rattle.graph_content.specs.Modifications.{Modification, after_row, counted_on};

use crate::touching::is_touched;
use edit_log::{Grammar, Touch};
use row_coding::{Kind, kind_of};
use std::marker::Model;

/// Chooses the rows of a grammar that an edit leaves, and counts the others. A contract sees the grammar, what
/// the edit touches, and the counts.
#[derive(Drop)]
pub struct Modify<'g> {
    /// The grammar before the edit, of which the rows are.
    grammar: &'g Grammar,
    /// What the edit touches in it.
    touch: &'g Touch,
    /// How many rows of item sets were refused.
    items: u32,
    /// How many rows of scanner states were refused.
    scan: u32,
}

impl<'g> Model for Modify<'g> {
    ghost use Rattle.graph_content.specs.Modifications.{Modification};

    ghost Value = { Modification };

    ghost view = { λ m. record { grammar = m.grammar.now.grammar; touch = m.touch.now; items = m.items; scan = m.scan } };
}

/// One more, but for the last number, which stays.
fn counted_on(count: u32) -> u32
    ensures { result ≡ counted_on count }
{
    count.saturating_add(1)
}

impl<'g> Modify<'g> {
    /// Chooses among the rows of the grammar, by what an edit touches in it. No row was refused yet.
    pub fn new(grammar: &'g Grammar, touch: &'g Touch) -> Modify<'g>
        ensures { result ≡ record { grammar = grammar.now.grammar; touch = touch.now; items = 0; scan = 0 } }
    {
        Modify {
            grammar,
            touch,
            items: 0,
            scan: 0,
        }
    }

    /// Whether the edit leaves the row. It goes once over the words of the key, and once over the heads of the
    /// moves, up to the edited left side. A row that it does not leave is counted.
    pub fn keep(&mut self, row: &[u64]) -> bool
        requires { Fits self.old.grammar row.now }
        ensures kept { (next : AGrammar) (key : Key) → IsChange self.old.grammar self.old.touch next → IsRowOf self.old.grammar key row.now
            → IsTrue result ↔ IsUnaffected self.old.grammar next key }
        ensures refused { (next : AGrammar) (key : Key) → IsChange self.old.grammar self.old.touch next → IsRowOf self.old.grammar key row.now
            → result ≡ false → IsAffected self.old.grammar next key }
        ensures fits { (next : AGrammar) → IsChange self.old.grammar self.old.touch next → IsTrue result → Fits next row.now }
        ensures counted { (key : Key) → IsRowOf self.old.grammar key row.now → self.new ≡ after_row self.old (kind_of_key key) result }
    {
        if !is_touched(self.touch, row) {
            return true;
        }
        self.count(kind_of(row));
        false
    }

    /// Counts one row more that was refused.
    fn count(&mut self, kind: Kind)
        ensures { self.new ≡ after_row self.old kind false }
    {
        match kind {
            Kind::Items => self.items = counted_on(self.items),
            Kind::Scan => self.scan = counted_on(self.scan),
        }
    }

    /// How many rows were refused so far: of item sets, and of scanner states. At the last number a count
    /// stands still.
    pub fn dropped(&self) -> (u32, u32)
        ensures { result ≡ (self.now.items, self.now.scan) }
    {
        (self.items, self.scan)
    }
}
