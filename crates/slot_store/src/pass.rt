//! A user of the shared table between its pins.
ghost use Rattle.std.specs.Prelude.{◌≡◌, ◌≢◌, ◌≤◌, [], None, length};
ghost use Rattle.pin_rule.specs.Hands.{view_of, table_of};
ghost use Rattle.pin_rule.specs.Views.{now};
ghost use Rattle.slot_store.specs.Meaning.{pass_meaning};
ghost use Rattle.slot_store.specs.Idle.{IsIdle};

use pin_rule::content::Content;
use pin_rule::hand::Hand;
use pin_rule::sizes::Sizes;

/// No pin is left.
#[derive(Clone, Copy, Debug, PartialEq, Eq, Drop)]
pub struct Spent;

/// A user of the shared table that has no pin. The buffer is for the payload
/// that is found last.
#[derive(Drop)]
pub struct Pass<C: Content> {
    /// Its seat at the table.
    pub(crate) hand: Hand<C>,
    /// How large the table is.
    pub(crate) sizes: Sizes,
    /// The row at which it looks for a free one first.
    pub(crate) next: u32,
    /// The newest version that it has seen.
    pub(crate) front: u32,
    /// How many pins it may still take.
    pub(crate) left: u32,
    /// The payload that was found last lies at its start.
    pub(crate) buffer: Vec<u64>,
    ghost measured: { (view_of hand).sizes ≡ sizes },
    ghost shared: { (view_of hand).share ≢ 0 },
    ghost unpinned: { (view_of hand).pinned ≡ None },
    ghost free: { (view_of hand).own ≡ None },
    ghost plain: { (view_of hand).role ≡ None },
    ghost at_front: { front ≡ now (view_of hand) },
    ghost whole_entries: { (view_of hand).log_words ≡ [] },
    ghost counted: { left ≡ (view_of hand).pins_left },
    ghost next_in: { next ≤ sizes.rows },
    ghost room: { sizes.width ≤ length buffer.items },
}

impl<C: Content> Pass<C> {
    ghost use Rattle.slot_store.specs.Means.{pass_of};

    /// A user with this hand, which has seen the version `front` and has so many
    /// pins left. It looks for free rows from `next` on. The buffer has room
    /// for a row.
    pub fn new(
        hand: Hand<C>,
        sizes: Sizes,
        front: u32,
        left: u32,
        next: u32,
        buffer: Vec<u64>,
    ) -> Pass<C>
        requires sizes { (view_of hand).sizes ≡ sizes }
        requires share { (view_of hand).share ≢ 0 }
        requires idle { IsIdle (view_of hand) }
        requires front { front ≡ now (view_of hand) }
        requires left { left ≡ (view_of hand).pins_left }
        requires next { next ≤ sizes.rows }
        requires room { sizes.width ≤ length buffer.items }
        ensures { pass_of result ≡ pass_meaning (view_of hand) (table_of hand) }
    {
        Pass {
            hand,
            sizes,
            next,
            front,
            left,
            buffer,
        }
    }

    /// Gives the hand back.
    pub fn into_hand(self) -> Hand<C>
        ensures same { pass_meaning (view_of result) (table_of result) ≡ pass_of self }
        ensures idle { IsIdle (view_of result) }
    {
        self.hand
    }
}
