//! A count of steps that exists in contracts alone.
//!
//! What a step is, its caller says: where an expansion is computed, it is an item of a closure or a
//! position. The count takes no bytes, and counting costs nothing when the program runs.
#![tactic(auto)]

ghost use Rattle.std.specs.Prelude.{◌≡◌, ◌+◌, ◌<◌};

use std::marker::Model;
use std::sync::ledger::{Blank, Book, Ledger, Share};

/// How many steps were taken. A contract sees the number, and only [`Steps::take`] changes it.
#[derive(Drop)]
pub struct Steps<L: Ledger> {
    /// The sum of all steps, which is the number that a contract sees.
    book: Book<L>,
    /// The parts of the ledger through which steps come into the sum, at least one.
    share: Share<L>,
}

impl<L: Ledger> Model for Steps<L> {
    ghost use Rattle.std.specs.Prelude.{ℕ, ◌<◌};

    ghost Value = { ℕ };

    ghost view = { λ s. s.book.total };

    ghost invariant = { λ s. 0 < s.share.parts };
}

impl<L: Ledger> Steps<L> {
    /// No steps yet, counted by a new ledger of at least one part.
    pub fn new(blank: Blank) -> Steps<L>
        requires name { blank.name ≡ L.name }
        requires parts { blank.parts ≡ L.parts }
        requires some { 0 < L.parts }
        ensures { result ≡ 0 }
    {
        let (book, share) = blank.open();
        Steps { book, share }
    }

    /// One step more.
    pub fn take(&mut self)
        ensures { self.new ≡ self.old + 1 }
    {
        self.book.add(&mut self.share, 1);
    }
}

#[cfg(test)]
mod tests {
    use super::*;
    use std::marker::Brand;
    use std::test::Fail;

    /// Takes as many steps as it says, on a new ledger.
    fn take_two<L: Ledger>(blank: Blank) -> u32
        requires name { blank.name ≡ L.name }
        requires parts { blank.parts ≡ L.parts }
        requires some { 0 < L.parts }
    {
        let mut steps = Steps::<L>::new(blank);
        steps.take();
        steps.take();
        2
    }

    #[test]
    fn counting_takes_no_bytes(rt: HostRuntime) -> Result<(), Fail> {
        assert_eq!(rt; take_two::<Brand>(Blank::new(1)), 2);
        assert_eq!(rt; size_of::<Steps<Brand>>(), 0);
        Ok(())
    }
}
