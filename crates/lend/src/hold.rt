//! A part of the right to one value, over the raw tokens.

ghost use Rattle.std.specs.Prelude.{◌≡◌, ℕ, ◌+◌, ◌-◌, ◌/◌, ◌<◌};
ghost use denote.RawPtr.{Ptr};
ghost use Rattle.lend.specs.Parts.{hold_owns, hold_shares, ptr_coded};
ghost use Rattle.lend.specs.declared.limits.TheConstants.{WHOLE};

use crate::lent::Lent;
use crate::loose::Loose;
use std::alloc::Allocator;
use std::marker::{Model, PhantomData};

/// Some parts of the right to read the value that lies at `at`. It has no bytes.
///
/// `age` names the lifetime for which the value is lent. Two holds of one age
/// are holds of one value.
pub(crate) struct Hold<T> {
    /// Names the type of the value.
    pub(crate) marker: PhantomData<*const T>,
    /// Where the value lies.
    pub(crate) ghost at: { Ptr } by { ptr_coded },
    /// The value.
    pub(crate) ghost value: { T },
    /// The lifetime for which it is lent.
    pub(crate) ghost age: { ℕ },
    /// How many parts of the right this has.
    pub(crate) ghost parts: { ℕ },
}

impl<T> Model for Hold<T> {
    ghost also_owns = { λ h. hold_owns T.row h.at h.value h.age h.parts };

    ghost also_shares = { λ h _ κ. hold_shares T.row h.at h.value h.age h.parts κ };
}

impl<T> Hold<T> {
    /// Half of the parts, rounded down, go to a new hold.
    pub(crate) fn cut(&mut self) -> Hold<T>
        ensures { ((self.new.at ≡ self.old.at) × (self.new.value ≡ self.old.value) × (self.new.age ≡ self.old.age)
            × (self.new.parts ≡ self.old.parts - self.old.parts / 2))
            × ((result.at ≡ self.old.at) × (result.value ≡ self.old.value) × (result.age ≡ self.old.age)
            × (result.parts ≡ self.old.parts / 2)) }
    {
        Hold {
            marker: PhantomData,
        }
    }

    /// The value, for as long as this hold is lent and if it has a part.
    pub(crate) fn show<'a>(&'a self, at: *const T) -> &'a T
        requires { (at ≡ self.now.at) × (0 < self.now.parts) }
        ensures { result.now ≡ self.now.value }
    {
        unsafe { &*at }
    }

    /// The parts of `other` are added to these.
    pub(crate) fn join(&mut self, other: Hold<T>)
        requires { other.age ≡ self.old.age }
        ensures { (self.new.at ≡ self.old.at) × (self.new.value ≡ self.old.value) × (self.new.age ≡ self.old.age)
            × (self.new.parts ≡ self.old.parts + other.parts) }
    {
        let Hold { marker: _ } = other;
    }
}

impl<T: Drop> Hold<T> {
    /// A hold that has all parts ends the lending, and the box is there again.
    pub(crate) fn end<A: Allocator>(self, lent: Lent<T, A>) -> Loose<T, A>
        requires { (lent.age ≡ self.age) × (self.parts ≡ WHOLE) }
        ensures { result.value ≡ lent.value }
    {
        let Hold { marker: _ } = self;
        let Lent { at, alloc } = lent;
        Loose { at, alloc }
    }
}

impl<T> Drop for Hold<T> {
    /// The parts are lost, so that nobody can end the lending any more.
    fn drop(self) {
        let Hold { marker: _ } = self;
    }
}

unsafe impl<T: Send + Sync> Send for Hold<T> {}
