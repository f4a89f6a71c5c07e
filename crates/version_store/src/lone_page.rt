//! A bench that has pinned its version, as a page that tells its graph.

ghost use Rattle.std.specs.Prelude.{◌≡◌};

use crate::lone::Lone;
use pin_rule::content::Content;
use slot_store::finding::Glance;
use slot_store::page::{Look, Page, Put};

impl<C: Content> Page<C> for Lone<C> {
    ghost use Rattle.version_store.specs.Means.{lone_of};

    ghost means = { lone_of };

    fn version(&self) -> u32 {
        self.hand.version()
    }

    fn log_entry(&mut self, index: u32) -> [u64; 32] {
        self.hand.log_entry(index)
    }

    fn find(&mut self, key: &[u64]) -> Look<'_> {
        match self.hand.look(key) {
            Glance::Found { count } => Look::Found(self.hand.payload(count)),
            Glance::Initial { place } => Look::Initial { place },
            Glance::PageFull => Look::PageFull,
        }
    }

    fn publish(&mut self, key: &[u64], payload: &[u64]) -> Put {
        self.hand.publish(key, payload)
    }
}
