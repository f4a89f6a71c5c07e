//! The rule of the table, as `atomic_table` asks for it.

use crate::content::Content;
use crate::sizes::Sizes;
use crate::view::View;
use atomic_table::TableRule;
use std::marker::PhantomData;

/// The rule of a table for the content `C`.
pub struct Rule<C> {
    /// Names the content.
    marker: PhantomData<C>,
}

impl<C: Content> TableRule<(), View, Sizes> for Rule<C> {
    ghost use Rattle.pin_rule.specs.Lawful.{Lawful};
    ghost use Rattle.pin_rule.specs.Steps.{first_view};

    ghost holds = { λ z s. Lawful C.lawful C.fits z s.words s.views };

    ghost first = { λ z. first_view z };
}
