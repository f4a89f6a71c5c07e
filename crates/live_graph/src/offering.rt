//! Rows that are put into a page.

ghost use Rattle.std.specs.Prelude.{◌<◌, length};
ghost use Rattle.slot_store.specs.Keys.{row_of};
ghost use Rattle.graph_content.specs.Contents.{FitsLog};
ghost use Rattle.live_graph.specs.Answers.{HasOffered};

use crate::origin::Origin;
use graph_content::GraphRows;
use slot_store::page::{Page, Put};

/// Offers a row to the page, and says what that makes of its expansion.
pub(crate) fn offer<P: Page<GraphRows>>(page: &mut P, key: &[u64], payload: &[u64]) -> Origin
    requires key { 0 < length key.now }
    requires fits { FitsLog (P.means page.old).log (row_of key.now payload.now) }
    ensures { HasOffered (P.means page.old) (P.means page.new) key.now payload.now result }
{
    match page.publish(key, payload) {
        Put::Made => Origin::Made,
        Put::Already => Origin::Raced,
        Put::PageFull => Origin::Alone,
        Put::PoolFull => Origin::Alone,
        Put::TooWide => Origin::Alone,
    }
}
