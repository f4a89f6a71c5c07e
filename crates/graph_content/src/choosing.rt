//! The choice of an edit among the rows of a shared table.

use crate::graph_rows::GraphRows;
use crate::modify::Modify;
use pin_rule::choosers::Chooser;

impl Chooser<GraphRows> for Modify<'_> {
    ghost use Rattle.graph_content.specs.Contents.{LeadsByTouch, KeepsRow, CountsRow};

    ghost leads = { LeadsByTouch };

    ghost keeps = { KeepsRow };

    ghost moves = { CountsRow };

    fn keep(&mut self, row: &[u64]) -> bool {
        self.keep(row)
    }
}
