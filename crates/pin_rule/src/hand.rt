//! One seat with its table.
ghost use Rattle.std.specs.Prelude.{◌≡◌, ◌≢◌, [], None};
ghost use Rattle.lend.specs.Loans.{parts_of, value_of, HasLender};
ghost use Rattle.pin_rule.specs.Layout.{word_count};

use crate::content::Content;
use crate::rule::Rule;
use crate::sizes::Sizes;
use crate::starts::Starts;
use crate::view::View;
use atomic_table::{Seat, Table};
use lend::loan::Loan;
use std::alloc::Global;

pub(crate) type Shelf<C> = Table<(), View, Sizes, Rule<C>, Global>;

/// One seat at a table of rows of the content `C`.
///
/// The table lies on the heap. A hand has as many parts of the right to it as
/// its view has of the share, so hands are split and joined without memory, and
/// a hand with the whole share can give the table's memory back: the editor's
/// hand is the lender of the table, and the role is never given away. A hand that
/// is dropped loses its share, and then the memory stays.
#[derive(Drop)]
pub struct Hand<C: Content> {
    /// Its parts of the right to the table.
    pub(crate) table: Loan<Shelf<C>>,
    /// Its seat, with the view that it has of the table.
    pub(crate) seat: Seat<(), View>,
    /// Where the parts of the table begin.
    pub(crate) starts: Starts,
    ghost alive: { parts_of table ≡ seat.me.0.share },
    ghost seated: { seat.table_id ≡ (value_of table).shared.table_id },
    ghost keyed: { (value_of table).shared.key ≡ starts.sizes },
    ghost wide: { (value_of table).shared.table_id.words ≡ word_count starts.sizes },
    ghost alone: { seat.me.1 ≡ [] },
    ghost told: { seat.me.0.sizes ≡ starts.sizes },
    ghost lends: { seat.me.0.role ≢ None → HasLender table },
}
