//! A value on the heap that several loans share.
ghost use Rattle.std.specs.Prelude.{◌≡◌, Some};

use crate::hold::Hold;
use crate::lent::Lent;
use std::alloc::Global;

/// Some parts of the right to a value on the heap.
///
/// The right has 4,294,967,296 parts. A loan with at least one part lends the
/// value, and a loan with all of them can give its memory back. The loans of
/// one value have the same age, and of two values another.
///
/// A loan that is dropped loses its parts. The value then stays where it is,
/// and its memory is not given back.
pub struct Loan<T> {
    /// Where the value lies.
    pub(crate) at: *const T,
    /// The parts that can be cut off.
    pub(crate) hold: Hold<T>,
    /// The lender's right, where it is in this loan.
    pub(crate) lent: Option<Lent<T, Global>>,
    ghost placed: { hold.at ≡ at },
    ghost aged: { (l : _) → lent ≡ Some l → l.age ≡ hold.age },
}

impl<T> Loan<T> {
    /// Takes the loan apart without losing its parts.
    pub(crate) fn into_parts(self) -> (Hold<T>, Option<Lent<T, Global>>)
        ensures { (result.0 ≡ self.hold) × (result.1 ≡ self.lent) }
    {
        let Loan { at: _, hold, lent } = self;
        (hold, lent)
    }
}

unsafe impl<T: Send + Sync> Send for Loan<T> {}

impl<T> Drop for Loan<T> {
    /// The parts are lost, and with them the memory of the value.
    fn drop(self) {
        let Loan {
            at: _,
            hold: _,
            lent,
        } = self;
        if let Some(lent) = lent {
            lent.leak();
        }
    }
}
