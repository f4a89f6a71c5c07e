//! How a bench pins its version while nobody else uses the table, and how it
//! drops the pin.

ghost use Rattle.std.specs.Prelude.{◌≡◌, IfOk, IfErr};
ghost use Rattle.version_store.specs.Means.{bench_of, lone_of};
ghost use Rattle.version_store.specs.PinningAlone.{PinsAlone, UnpinsAlone};

use crate::bench::Bench;
use crate::editor::Editor;
use crate::lone::Lone;
use pin_rule::content::Content;
use slot_store::pass::Spent;
use slot_store::pinned_hand::PinnedHand;

impl<C: Content> Bench<C> {
    /// Pins the version. It takes no memory.
    ///
    /// `Spent` comes exactly where no pin is left, and changes nothing.
    pub fn pin(self) -> Result<Lone<C>, (Bench<C>, Spent)>
        ensures pins { IfOk result (λ l. PinsAlone (bench_of self) (lone_of l)) }
        ensures spent { IfErr result (λ e. ((bench_of self).pins_left ≡ 0) × (e.0 ≡ self)) }
    {
        if self.editor.left == 0 {
            return Err((self, Spent));
        }
        let Editor {
            alloc,
            mut hand,
            sizes,
            lives,
            left,
            row,
            places,
        } = self.into_editor();
        let met = hand.pin();
        let hand = PinnedHand::new(hand, sizes, met, 0, left - 1, row);
        Ok(Lone {
            alloc,
            hand,
            lives,
            places,
        })
    }
}

impl<C: Content> Lone<C> {
    /// Drops the pin. It takes no memory.
    pub fn unpin(self) -> Bench<C>
        ensures { UnpinsAlone (lone_of self) (bench_of result) }
    {
        let editor = self.into_editor();
        Bench { editor }
    }
}
