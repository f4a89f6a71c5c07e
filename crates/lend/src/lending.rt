//! The calls stand apart from the type, since their clauses name what a loan
//! means and the type's own file cannot.

ghost use Rattle.std.specs.Prelude.{◌≡◌, ◌+◌, ◌-◌, ◌/◌, ◌<◌, IfOk};
ghost use Rattle.lend.specs.Loans.{value_of, age_of, parts_of, whole_right, HasLender};

use crate::NoMemory;
use crate::lent::Lent;
use crate::loan::Loan;
use crate::loose::Loose;
use std::alloc::{AllocError, Global};

impl<T: Drop> Loan<T> {
    /// Puts the value on the heap. The loan has all parts of its right, and is the
    /// lender.
    pub fn new(alloc: Global, value: T) -> Result<Loan<T>, NoMemory>
        ensures { IfOk result (λ l. (value_of l ≡ value) × (parts_of l ≡ whole_right) × HasLender l) }
    {
        match Box::new(alloc, value) {
            Ok(boxed) => {
                let (lent, hold, at) = Lent::begin(Loose::of(boxed));
                Ok(Loan {
                    at: at.cast_const(),
                    hold,
                    lent: Some(lent),
                })
            }
            Err(_) => Err(AllocError),
        }
    }

    /// Drops the value and gives its memory back.
    pub fn close(self)
        requires whole_right { parts_of self ≡ whole_right }
        requires lender { HasLender self }
    {
        let (hold, lent) = self.into_parts();
        let Some(lent) = lent else { unreachable!() };
        drop(hold.end(lent).into_box());
    }
}

impl<T> Loan<T> {
    /// The value.
    pub fn value(&self) -> &T
        requires { 0 < parts_of self.now }
        ensures { result.now ≡ value_of self.now }
    {
        self.hold.show(self.at)
    }

    /// Half of the parts, rounded down, go to a new loan. The lender stays this one.
    pub fn cut(&mut self) -> Loan<T>
        ensures value { (value_of self.new ≡ value_of self.old) × (value_of result ≡ value_of self.old) }
        ensures age { (age_of self.new ≡ age_of self.old) × (age_of result ≡ age_of self.old) }
        ensures kept { parts_of self.new ≡ parts_of self.old - parts_of self.old / 2 }
        ensures taken { parts_of result ≡ parts_of self.old / 2 }
        ensures lender { HasLender self.old → HasLender self.new }
    {
        let hold = self.hold.cut();
        Loan {
            at: self.at,
            hold,
            lent: None,
        }
    }

    /// Adds the parts of another loan of this value. Where one of them is the
    /// lender, this one is.
    pub fn join(&mut self, other: Loan<T>)
        requires { age_of other ≡ age_of self.old }
        ensures same { (value_of self.new ≡ value_of self.old) × (age_of self.new ≡ age_of self.old) }
        ensures parts { parts_of self.new ≡ parts_of self.old + parts_of other }
        ensures lender { HasLender self.old → HasLender self.new }
        ensures theirs { HasLender other → HasLender self.new }
    {
        let (hold, lent) = other.into_parts();
        self.hold.join(hold);
        if let Some(theirs) = lent {
            if let Some(mine) = self.lent.replace(theirs) {
                mine.leak();
            }
        }
    }
}
