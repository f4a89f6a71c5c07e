//! How an editor makes a version.

ghost use Rattle.std.specs.Prelude.{◌≡◌, ◌<◌, ◌↔◌, ◌+◌, [], ◌∷◌, ◌++◌, ℕ, List, length, IfOk, IfErr, OnOk};
ghost use Rattle.pin_rule.specs.declared.content.Entry.{Entry};
ghost use Rattle.pin_rule.specs.Hands.{view_of};
ghost use Rattle.pin_rule.specs.Views.{whole};
ghost use Rattle.version_store.specs.Asking.{AsksRows};
ghost use Rattle.version_store.specs.Graphs.{rows_known, IsWholeKnown};
ghost use Rattle.version_store.specs.Choices.{KeepsRows};
ghost use Rattle.version_store.specs.Edits.{MakesVersion, HasRoom, Edits, Refuses, IsSameEditor, IsSameVersion};
ghost use Rattle.version_store.specs.Means.{editor_of};

use crate::current::Current;
use crate::edit_error::EditError;
use crate::editor::Editor;
use crate::next_version::make_next;
use pin_rule::choosers::Chooser;
use pin_rule::content::Content;

impl<C: Content> Editor<C> {
    /// Makes the next version, for which there is room.
    pub(crate) fn make_version<H: Chooser<C>>(&mut self, entry: &[u64; 32], chooser: &mut H) -> u32
        requires room { HasRoom (editor_of self.old) }
        requires lawful { C.lawful ((editor_of self.old).log ++ record { words = entry.now } ∷ []) }
        requires leads { H.leads chooser.old (editor_of self.old).log ((editor_of self.old).log ++ record { words = entry.now } ∷ []) }
        ensures version { result ≡ length (editor_of self.new).log }
        ensures made { MakesVersion (H.keeps chooser.old) entry.now (editor_of self.old) (editor_of self.new) }
        ensures same { IsSameEditor (editor_of self.old) (editor_of self.new) }
        ensures graph { (view_of self.old.hand).share ≡ whole → IsWholeKnown self.old.sizes (view_of self.old.hand).known
            → KeepsRows (H.keeps chooser.old) self.old.sizes (view_of self.old.hand).known (view_of self.new.hand).known }
        ensures asked { (view_of self.old.hand).share ≡ whole → IsWholeKnown self.old.sizes (view_of self.old.hand).known
            → AsksRows H.moves chooser.old chooser.new (rows_known (view_of self.old.hand).known) self.old.sizes.places }
        ensures same_leads { (first next : List Entry) → H.leads chooser.new first next ↔ H.leads chooser.old first next }
        ensures same_keeps { (words : List ℕ) → H.keeps chooser.new words ↔ H.keeps chooser.old words }
    {
        let version = self.lives.newest.version;
        let next = self.lives.spare_page();
        let current = Current {
            sizes: self.sizes,
            version,
            page: self.lives.newest.page,
            next,
        };
        let met = make_next(
            &mut self.hand,
            current,
            entry,
            chooser,
            self.row.as_mut_slice(),
            self.places.as_mut_slice(),
        );
        let taken = (met % 4_294_967_296) as u32;
        self.lives
            .add(version + 1, next, taken, self.places.as_mut_slice());
        version + 1
    }

    /// Adds the entry to the log and makes the next version, whose page has the
    /// rows of the page before that the chooser keeps. Answers the version.
    /// Versions that nobody pins are given up before. It takes no memory.
    ///
    /// `VersionsFull` comes where as many versions as there are pages are live
    /// then, since a pin on the oldest one is out. `LogFull` comes where that is
    /// not so, and the log is full. After either the log, the current version and
    /// its page are as they were.
    pub fn edit<H: Chooser<C>>(
        &mut self,
        entry: &[u64; 32],
        chooser: &mut H,
    ) -> Result<u32, EditError>
        requires lawful { C.lawful ((editor_of self.old).log ++ record { words = entry.now } ∷ []) }
        requires leads { H.leads chooser.old (editor_of self.old).log ((editor_of self.old).log ++ record { words = entry.now } ∷ []) }
        ensures version { IfOk result (λ version. version ≡ length (editor_of self.new).log) }
        ensures made { OnOk result (Edits (H.keeps chooser.old) entry.now (editor_of self.old) (editor_of self.new)) }
        ensures same { IsSameEditor (editor_of self.old) (editor_of self.new) }
        ensures cause { IfErr result (λ error. Refuses error (editor_of self.old) (editor_of self.new)) }
        ensures unchanged { IfErr result (λ _. IsSameVersion (editor_of self.old) (editor_of self.new)) }
        ensures same_leads { (first next : List Entry) → H.leads chooser.new first next ↔ H.leads chooser.old first next }
        ensures same_keeps { (words : List ℕ) → H.keeps chooser.new words ↔ H.keeps chooser.old words }
    {
        let given = self.give_up_dropped();
        if self.lives.count() == self.sizes.versions {
            let oldest = self.lives.older[0];
            return Err(EditError::VersionsFull {
                version: oldest.live.version,
                taken: oldest.taken,
                released: given.released,
            });
        }
        if self.lives.newest.version == self.sizes.log {
            return Err(EditError::LogFull {
                entries: self.lives.newest.version,
            });
        }
        Ok(self.make_version(entry, chooser))
    }
}
