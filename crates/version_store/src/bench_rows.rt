//! How a bench tells the rows of its page.

ghost use Rattle.std.specs.Prelude.{◌≡◌, ◌≢◌, ◌<◌, ◌≤◌, ⊤, ℕ, Some, None, take, length, IfSome, IfNone};
ghost use mathlib.Core.Option.{none};
ghost use Rattle.std.specs.Borrow.{sem, follows_so};
ghost use Rattle.pin_rule.specs.Hands.{view_of, table_of};
ghost use Rattle.pin_rule.specs.Told.{Tells};
ghost use Rattle.version_store.specs.declared.current.Current.{Current};
ghost use Rattle.version_store.specs.contracts.bench.Bench.{the_row};
ghost use Rattle.version_store.specs.PlaceReading.{ReadsPlace};
ghost use Rattle.version_store.specs.BenchRows.{TellsRow, LendsRow};
ghost use Rattle.version_store.specs.Placed.{ReadsAt};
ghost use Rattle.version_store.specs.Means.{bench_of, StandsAt};

use crate::bench::Bench;
use crate::current::Current;
use crate::editor::Editor;
use crate::page_reading::read_place;
use pin_rule::content::Content;

impl<C: Content> Editor<C> {
    /// Reads a place of the newest page, and the row there into the buffer's
    /// start. Answers how many words it has.
    fn read_at(&mut self, place: u32) -> Option<usize>
        requires { place < self.old.sizes.places }
        ensures table { table_of self.new.hand ≡ table_of self.old.hand }
        ensures sizes { self.new.sizes ≡ self.old.sizes }
        ensures none { IfNone result ((c : Current) × (c.sizes ≡ self.old.sizes)
            × ReadsPlace c (view_of self.old.hand) (view_of self.new.hand) place None) }
        ensures some { IfSome result (λ count. (count ≤ length self.new.row.items) × ((c : Current) × (row : ℕ) × (c.sizes ≡ self.old.sizes)
            × ReadsPlace c (view_of self.old.hand) (view_of self.new.hand) place (Some record { row = row; words = take count self.new.row.items }))) }
        ensures fits { IfSome result (λ count. C.fits (view_of self.new.hand).log (take count self.new.row.items)) }
        ensures told { Tells C.lawful C.fits (view_of self.new.hand) }
    {
        let newest = self.lives.newest;
        let current = Current {
            sizes: self.sizes,
            version: newest.version,
            page: newest.page,
            next: newest.page,
        };
        read_place(&mut self.hand, current, place, self.row.as_mut_slice())
    }
}

impl<C: Content> Bench<C> {
    /// The row at a place of the page: the length of its key, the length of its
    /// payload, key and payload. `None` says that the place is empty. It takes no
    /// memory.
    pub fn row(&mut self, place: u32) -> Option<&[u64]>
        requires { place < (bench_of self.old).sizes.places }
        ensures lent { LendsRow (bench_of self.old) result }
        ensures* told { sem 𝓛 (follows_so (the_row C.row C.Content) (the_row C.row C.Content) self.entry.ghost_name none (λ _ _. ⊤)
            (λ n. TellsRow (bench_of self.old) (bench_of n) place result
            × ReadsAt C.fits (bench_of self.old) (bench_of n) (StandsAt self.old) (StandsAt n) place result)) }
    {
        match self.editor.read_at(place) {
            Some(count) => Some(&self.editor.row.as_slice()[..count]),
            None => None,
        }
    }
}
