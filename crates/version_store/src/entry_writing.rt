//! How the entry of the next version is written.

ghost use Rattle.std.specs.Prelude.{◌≡◌, ◌<◌, [], ◌∷◌, ◌++◌, None, length};
ghost use Rattle.pin_rule.specs.Hands.{view_of, table_of};
ghost use Rattle.pin_rule.specs.Views.{pages_taken};
ghost use Rattle.pin_rule.specs.Making.{spare_page};
ghost use Rattle.version_store.specs.Roles.{role_of};
ghost use Rattle.version_store.specs.Stages.{IsEditorOf, WritesEntry};

use crate::current::Current;
use pin_rule::content::Content;
use pin_rule::hand::Hand;

/// Writes the entry after the log, in the order of its words. With the first of
/// them the next version is in the making.
pub(crate) fn write_entry<C: Content>(hand: &mut Hand<C>, current: Current, entry: &[u64; 32])
    requires editor { IsEditorOf current (view_of hand.old) }
    requires log { current.version < current.sizes.log }
    requires idle { (role_of (view_of hand.old)).making ≡ None }
    requires next { spare_page (role_of (view_of hand.old)) ≡ current.next }
    requires room { length (pages_taken (role_of (view_of hand.old))) < current.sizes.versions }
    requires lawful { C.lawful ((view_of hand.old).log ++ record { words = entry.now } ∷ []) }
    ensures table { table_of hand.new ≡ table_of hand.old }
    ensures long { length entry.now ≡ 32 }
    ensures wrote { WritesEntry current (view_of hand.old) (view_of hand.new) entry.now }
{
    for index in 0..32u32 {
        hand.write_log(current.version, index, entry[index as usize]);
    }
}
