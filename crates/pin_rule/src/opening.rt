//! How a table is made, and how its memory is given back.

ghost use Rattle.std.specs.Prelude.{◌≡◌, ◌≢◌, IfOk, None};
ghost use Rattle.pin_rule.specs.Views.{whole};
ghost use Rattle.pin_rule.specs.Steps.{first_view};
ghost use Rattle.pin_rule.specs.Hands.{view_of, sizes_of};

use crate::NoMemory;
use crate::content::Content;
use crate::hand::{Hand, Shelf};
use crate::sizes::Sizes;
use crate::starts::Starts;
use lend::loan::Loan;
use std::alloc::Global;

impl<C: Content> Hand<C> {
    /// A new table at version 0, with its one seat: it has the editor's role,
    /// the whole share and all pins.
    pub fn open(alloc: Global, sizes: Sizes) -> Result<Hand<C>, NoMemory>
        ensures { IfOk result (λ h. view_of h ≡ first_view sizes) }
    {
        let words = Vec::from_elem(alloc, 0u64, sizes.words())?;
        let (table, seat) = Shelf::<C>::of_words(alloc, words.as_slice(), &sizes)?;
        let table = Loan::new(alloc, table)?;
        let starts = Starts::of(sizes);
        Ok(Hand {
            table,
            seat,
            starts,
        })
    }

    /// Gives the memory of the table back. Who has the whole share has the editor's
    /// role.
    pub fn close(self)
        requires share { (view_of self).share ≡ whole }
        requires role { (view_of self).role ≢ None }
    {
        let Hand {
            table,
            seat: _,
            starts: _,
        } = self;
        table.close();
    }
}
