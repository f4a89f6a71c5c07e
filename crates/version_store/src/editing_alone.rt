//! How a bench makes a version while nobody else uses the table.

ghost use Rattle.std.specs.Prelude.{◌≡◌, ◌<◌, ◌↔◌, [], ◌∷◌, ◌++◌, ℕ, List, length, IfOk, IfErr, OnOk};
ghost use Rattle.pin_rule.specs.declared.content.Entry.{Entry};
ghost use Rattle.version_store.specs.Asking.{AsksRows};
ghost use Rattle.version_store.specs.Alone.{EditsAlone, IsFullOfEntries};
ghost use Rattle.version_store.specs.Means.{bench_of};

use crate::bench::Bench;
use crate::edit_error::LogFull;
use pin_rule::choosers::Chooser;
use pin_rule::content::Content;

impl<C: Content> Bench<C> {
    /// Adds the entry to the log and makes the next version, whose page has
    /// exactly the rows that the chooser keeps: it is asked about each row of the
    /// page once. Answers the version. The version before is given up. It takes no
    /// memory.
    ///
    /// `LogFull` comes exactly where the log is full, and changes nothing.
    pub fn edit_alone<H: Chooser<C>>(
        &mut self,
        entry: &[u64; 32],
        chooser: &mut H,
    ) -> Result<u32, LogFull>
        requires lawful { C.lawful ((bench_of self.old).log ++ record { words = entry.now } ∷ []) }
        requires leads { H.leads chooser.old (bench_of self.old).log ((bench_of self.old).log ++ record { words = entry.now } ∷ []) }
        ensures version { IfOk result (λ version. version ≡ length (bench_of self.new).log) }
        ensures room { OnOk result (length (bench_of self.old).log < (bench_of self.old).sizes.log) }
        ensures made { OnOk result (EditsAlone (H.keeps chooser.old) entry.now (bench_of self.old) (bench_of self.new)) }
        ensures asked { OnOk result (AsksRows H.moves chooser.old chooser.new (bench_of self.old).graph (bench_of self.old).sizes.places) }
        ensures full { IfErr result (λ error. IsFullOfEntries (bench_of self.old) error.entries) }
        ensures unchanged { IfErr result (λ _. self.new ≡ self.old) }
        ensures same_leads { (first next : List Entry) → H.leads chooser.new first next ↔ H.leads chooser.old first next }
        ensures same_keeps { (words : List ℕ) → H.keeps chooser.new words ↔ H.keeps chooser.old words }
    {
        if self.editor.lives.newest.version == self.editor.sizes.log {
            return Err(LogFull {
                entries: self.editor.lives.newest.version,
            });
        }
        let version = self.editor.make_version(entry, chooser);
        self.editor.give_up();
        Ok(version)
    }
}
