//! How the next version is made.

ghost use Rattle.std.specs.Prelude.{◌≡◌, ◌<◌, ◌↔◌, [], ◌∷◌, ◌++◌, ℕ, List, None, length, replicate};
ghost use Rattle.pin_rule.specs.declared.content.Entry.{Entry};
ghost use Rattle.pin_rule.specs.Hands.{view_of, table_of};
ghost use Rattle.pin_rule.specs.Views.{whole, pages_taken};
ghost use Rattle.pin_rule.specs.Making.{spare_page};
ghost use Rattle.version_store.specs.Asking.{AsksRows};
ghost use Rattle.version_store.specs.Roles.{role_of};
ghost use Rattle.version_store.specs.Stages.{IsEditorOf};
ghost use Rattle.version_store.specs.Graphs.{rows_known, IsWholeKnown};
ghost use Rattle.version_store.specs.Choices.{MakesNext};

use crate::choosing::choose_rows;
use crate::current::Current;
use crate::entry_writing::write_entry;
use crate::page_writing::write_page;
use pin_rule::choosers::Chooser;
use pin_rule::content::Content;
use pin_rule::hand::Hand;

/// Makes the next version the current one, with this entry and the rows that
/// are kept. The places are empty at first. Answers the word that named the
/// version before.
pub(crate) fn make_next<C: Content, H: Chooser<C>>(
    hand: &mut Hand<C>,
    current: Current,
    entry: &[u64; 32],
    chooser: &mut H,
    buffer: &mut [u64],
    places: &mut [u64],
) -> u64
    requires editor { IsEditorOf current (view_of hand.old) }
    requires log { current.version < current.sizes.log }
    requires idle { (role_of (view_of hand.old)).making ≡ None }
    requires next { spare_page (role_of (view_of hand.old)) ≡ current.next }
    requires room { length (pages_taken (role_of (view_of hand.old))) < current.sizes.versions }
    requires lawful { C.lawful ((view_of hand.old).log ++ record { words = entry.now } ∷ []) }
    requires leads { H.leads chooser.old (view_of hand.old).log ((view_of hand.old).log ++ record { words = entry.now } ∷ []) }
    requires buffer { length buffer.old ≡ current.sizes.width }
    requires places { places.old ≡ replicate current.sizes.places 0 }
    ensures table { table_of hand.new ≡ table_of hand.old }
    ensures made { MakesNext (H.keeps chooser.old) current (view_of hand.old) (view_of hand.new) entry.now places.new result }
    ensures asked { (view_of hand.old).share ≡ whole → IsWholeKnown current.sizes (view_of hand.old).known
        → AsksRows H.moves chooser.old chooser.new (rows_known (view_of hand.old).known) current.sizes.places }
    ensures buffer { length buffer.new ≡ current.sizes.width }
    ensures places { length places.new ≡ current.sizes.places }
    ensures same_leads { (first next : List Entry) → H.leads chooser.new first next ↔ H.leads chooser.old first next }
    ensures same_keeps { (words : List ℕ) → H.keeps chooser.new words ↔ H.keeps chooser.old words }
{
    write_entry(hand, current, entry);
    choose_rows(hand, current, chooser, buffer, places);
    write_page(hand, current, places);
    hand.swap_current(current.version + 1, current.next)
}
