//! What an operation makes of the views of its seats, and what it tells of them.

ghost use Rattle.std.specs.Prelude.{◌≡◌};
ghost use Rattle.pin_rule.specs.Ops.{word_of};
ghost use Rattle.pin_rule.specs.Steps.{after, after_split, split_off, after_join, spent_view};
ghost use Rattle.pin_rule.specs.Told.{Tells, Meets};

use crate::content::Content;
use crate::view::View;
use atomic_table::{Join, Play, Split};
use std::marker::{Brand, PhantomData};

/// The operation that a step makes.
pub(crate) trait Doing {
    ghost use Rattle.pin_rule.specs.declared.ops.Op.{Op};

    ghost op: { Op };
}

impl Doing for Brand {
    ghost use Rattle.pin_rule.specs.declared.ops.Op.TheVariants.{Claim};

    ghost op = { Claim 0 };
}

/// How many pins a new seat gets.
pub(crate) trait Portion {
    ghost use Rattle.std.specs.Prelude.{ℕ};

    ghost pins: { ℕ };
}

impl Portion for Brand {
    ghost pins = { 0 };
}

/// An operation that tells the word that it met. Beside the view it tells what
/// the rule says of that view and of the word.
pub(crate) struct Reads<C, G> {
    /// Names the content and the operation.
    marker: PhantomData<(C, G)>,
}

impl<C: Content, G: Doing> Play<(), View> for Reads<C, G> {
    ghost then = { λ _ v n w. (w.0 ≡ after v.0 G.op n) × (w.1 ≡ v.1) × Tells C.lawful C.fits w.0 × Meets v.0 G.op n };
}

/// An operation that tells nothing of the word that it met.
pub(crate) struct Stores<G> {
    /// Names the operation.
    marker: PhantomData<G>,
}

impl<G: Doing> Play<(), View> for Stores<G> {
    ghost then = { λ _ v n w. (w.0 ≡ after v.0 G.op n) × (w.1 ≡ v.1) };
}

/// A seat gets half of the share, rounded down, and some pins.
pub(crate) struct Halves<P> {
    /// Names how many pins.
    marker: PhantomData<P>,
}

impl<P: Portion> Split<View> for Halves<P> {
    ghost left = { λ v. after_split v P.pins };

    ghost right = { λ v. split_off v P.pins };
}

/// A seat takes in another.
pub(crate) struct Both;

impl Join<View> for Both {
    ghost both = { after_join };

    ghost spent = { spent_view };
}
