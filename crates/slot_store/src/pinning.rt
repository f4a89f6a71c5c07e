//! How the current version is pinned, and how the pin is dropped.
ghost use Rattle.std.specs.Prelude.{◌≡◌, length, IfOk, IfErr};
ghost use Rattle.slot_store.specs.Means.{means_of, pass_of};
ghost use Rattle.slot_store.specs.Pinning.{TakesPin, DropsPin};

use crate::catching::catch_up;
use crate::pass::{Pass, Spent};
use crate::pinned::Pinned;
use crate::pinned_hand::PinnedHand;
use crate::site::{Site, page_in, version_in};
use pin_rule::content::Content;

impl<C: Content> Pass<C> {
    /// The newest version that it has seen.
    pub fn front(&self) -> u32
        ensures { result ≡ length (pass_of self.now).log }
    {
        self.front
    }

    pub fn pins_left(&self) -> u32
        ensures { result ≡ (pass_of self.now).pins_left }
    {
        self.left
    }

    /// Pins the current version, which is the front or a later one, and reads
    /// the entries of the log up to it. `Spent` comes where no pin is left.
    pub fn pin(self) -> Result<Pinned<C>, (Pass<C>, Spent)>
        ensures pins { IfOk result (λ p. TakesPin (pass_of self) (means_of p)) }
        ensures lawful { IfOk result (λ p. C.lawful (means_of p).log) }
        ensures spent { IfErr result (λ e. ((pass_of self).pins_left ≡ 0) × (e.0 ≡ self)) }
    {
        if self.left == 0 {
            return Err((self, Spent));
        }
        let Pass {
            hand,
            sizes,
            next,
            front,
            left,
            buffer,
        } = self;
        let mut hand = hand;
        let current = hand.pin();
        let site = Site {
            sizes,
            page: page_in(current),
            version: version_in(current),
        };
        catch_up(&mut hand, site, front);
        let hand = PinnedHand {
            hand,
            site,
            next,
            left: left - 1,
            buffer,
        };
        Ok(Pinned { hand })
    }
}

impl<C: Content> Pinned<C> {
    /// Drops the pin.
    pub fn unpin(self) -> Pass<C>
        ensures { DropsPin (means_of self) (pass_of result) }
    {
        let site = self.hand.site;
        let next = self.hand.next;
        let left = self.hand.left;
        let (hand, buffer) = self.hand.unpin();
        Pass {
            hand,
            sizes: site.sizes,
            next,
            front: site.version,
            left,
            buffer,
        }
    }
}
