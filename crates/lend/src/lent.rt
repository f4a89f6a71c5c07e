//! A value on the heap that is lent.

ghost use Rattle.std.specs.Prelude.{◌≡◌, ℕ};
ghost use Rattle.lend.specs.Parts.{lent_owns};
ghost use Rattle.lend.specs.declared.limits.TheConstants.{WHOLE};

use crate::hold::Hold;
use crate::loose::Loose;
use std::alloc::{Allocator, Global};
use std::marker::{Model, PhantomData};

/// The right to have the box back once the lifetime `age` has ended.
pub(crate) struct Lent<T, A: Allocator> {
    /// Where the value lies.
    pub(crate) at: *mut T,
    /// The allocator that its memory goes back to.
    pub(crate) alloc: A,
    /// The value.
    pub(crate) ghost value: { T },
    /// The lifetime for which it is lent.
    pub(crate) ghost age: { ℕ },
}

impl<T, A: Allocator> Model for Lent<T, A> {
    ghost also_owns = { λ l. lent_owns (A.dealloc_token l.alloc) T.row l.at l.value l.age };
}

impl<T: Drop, A: Allocator> Lent<T, A> {
    /// Lends the box out for a new lifetime. The hold has all parts of it. The
    /// pointer is answered beside them, so that a generated proof need not look
    /// into either.
    pub(crate) fn begin(loose: Loose<T, A>) -> (Lent<T, A>, Hold<T>, *mut T)
        ensures { ((result.0.at ≡ loose.at) × (result.0.value ≡ loose.value))
            × ((result.1.at ≡ loose.at) × (result.1.value ≡ loose.value) × (result.1.age ≡ result.0.age) × (result.1.parts ≡ WHOLE))
            × (result.2 ≡ loose.at) }
    {
        let Loose { at, alloc } = loose;
        (
            Lent { at, alloc },
            Hold {
                marker: PhantomData,
            },
            at,
        )
    }
}

impl<T> Lent<T, Global> {
    /// The box stays lent for good, and its memory is never given back.
    pub(crate) fn leak(self) {
        let Lent { at: _, alloc: _ } = self;
    }
}

unsafe impl<T: Send, A: Allocator + Send> Send for Lent<T, A> {}
