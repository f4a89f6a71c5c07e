//! A pinned user as a page. Others extend it too, so it does not tell its graph.

ghost use Rattle.std.specs.Prelude.{◌≡◌};

use crate::finding::Glance;
use crate::page::{Look, Page, Put};
use crate::pinned::Pinned;
use pin_rule::content::Content;

impl<C: Content> Page<C> for Pinned<C> {
    ghost use Rattle.slot_store.specs.Means.{means_of};

    ghost means = { means_of };

    fn version(&self) -> u32 {
        self.hand.version()
    }

    fn log_entry(&mut self, index: u32) -> [u64; 32] {
        self.hand.log_entry(index)
    }

    fn find(&mut self, key: &[u64]) -> Look<'_> {
        match self.hand.look(key) {
            Glance::Found { count } => Look::Found(self.hand.payload(count)),
            Glance::Initial { place } => Look::Initial { place },
            Glance::PageFull => Look::PageFull,
        }
    }

    fn publish(&mut self, key: &[u64], payload: &[u64]) -> Put {
        self.hand.publish(key, payload)
    }
}
