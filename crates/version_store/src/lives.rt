//! The versions that are live, as the editor knows them.

ghost use Rattle.std.specs.Prelude.{◌≡◌, ◌≤◌, ◌<◌, ◌+◌, ℕ, length, vec_capacity};
ghost use Rattle.pin_rule.specs.Lists.{In};
ghost use Rattle.version_store.specs.LivePages.{pages_noted};

use crate::NoMemory;
use crate::carried_rows::CarriedRows;
use crate::live_version::{LiveVersion, OlderVersion};
use pin_rule::sizes::Sizes;
use std::alloc::Global;

/// The versions that are live, with the rows that were carried into each. The
/// older ones stand oldest first. Of a page that no live version has, the
/// release word is known; of another it is one from before.
#[derive(Drop)]
pub(crate) struct Lives {
    /// How large the table is.
    pub(crate) sizes: Sizes,
    /// The newest version.
    pub(crate) newest: LiveVersion,
    /// The others, oldest first.
    pub(crate) older: Vec<OlderVersion>,
    /// The rows that were carried into each.
    pub(crate) carried: CarriedRows,
    /// For each page, a release word.
    releases: [u64; 16],
    ghost measured: { carried.sizes ≡ sizes },
    ghost few: { length older.items + 1 ≤ sizes.versions },
    ghost room: { sizes.versions ≤ vec_capacity older },
    ghost many: { length releases ≡ 16 },
    ghost pages_in: { (page : ℕ) → In page (pages_noted newest older.items) → page < sizes.versions },
}

impl Lives {
    ghost use Rattle.std.specs.Prelude.{suc, List, [], ◌∷◌, true, false, IfOk, replicate, slice_index};
    ghost use Rattle.pin_rule.specs.declared.view.Live.{Live};
    ghost use Rattle.pin_rule.specs.declared.view.Older.{Older};
    ghost use Rattle.pin_rule.specs.GivingUp.{last_of, before_last};
    ghost use Rattle.pin_rule.specs.Making.{rows_of};
    ghost use Rattle.pin_rule.specs.PartLive.{known_release};
    ghost use Rattle.version_store.specs.LivePages.{first_page};
    ghost use Rattle.version_store.specs.Notes.{IsNoted};

    /// Version 0, at page 0.
    pub(crate) fn first(alloc: Global, sizes: Sizes) -> Result<Lives, NoMemory>
        ensures sizes { IfOk result (λ l. l.sizes ≡ sizes) }
        ensures noted { IfOk result (λ l. IsNoted (record { version = 0; page = 0; base = 0; carried = [] }) [] [] l) }
    {
        let older = Vec::with_capacity(alloc, sizes.versions as usize)?;
        let carried = CarriedRows::new(alloc, sizes)?;
        Ok(Lives {
            sizes,
            newest: LiveVersion {
                version: 0,
                page: 0,
                base: 0,
            },
            older,
            carried,
            releases: [0; 16],
        })
    }

    /// How many versions are live.
    pub(crate) fn count(&self) -> u32
        ensures { result ≡ length self.now.older.items + 1 }
    {
        self.older.len() as u32 + 1
    }

    /// The page of the oldest version.
    pub(crate) fn oldest_page(&self) -> u32
        ensures { result ≡ first_page self.now.newest self.now.older.items }
    {
        if self.older.is_empty() {
            return self.newest.page;
        }
        self.older[0].live.page
    }

    /// Whether a live version has the page.
    fn is_taken(&self, page: u32) -> bool
        ensures yes { result ≡ true → In page (pages_noted self.now.newest self.now.older.items) }
        ensures no { result ≡ false → ¬ (In page (pages_noted self.now.newest self.now.older.items)) }
    {
        if self.newest.page == page {
            return true;
        }
        for at in 0..self.older.len() {
            if self.older[at].live.page == page {
                return true;
            }
        }
        false
    }

    /// The least page that no live version has.
    pub(crate) fn spare_page(&self) -> u32
        requires { length self.now.older.items + 1 < self.now.sizes.versions }
        ensures inside { result < self.now.sizes.versions }
        ensures spare { ¬ (In result (pages_noted self.now.newest self.now.older.items)) }
        ensures least { (page : ℕ) → page < result → In page (pages_noted self.now.newest self.now.older.items) }
    {
        for page in 0..self.sizes.versions {
            if !self.is_taken(page) {
                return page;
            }
        }
        0
    }

    /// The oldest version is no longer live; the release word of its page is
    /// this one.
    pub(crate) fn drop_oldest(&mut self, released: u64)
        requires { 0 < length self.old.older.items }
        ensures sizes { self.new.sizes ≡ self.old.sizes }
        ensures few { length self.new.older.items + 1 ≡ length self.old.older.items }
        ensures noted { (newest : Live) (a : Older) (os : List Older) (known : List (ℕ × ℕ)) → IsNoted newest (a ∷ os) known self.old
            → IsNoted newest (before_last a os) (((last_of a os).live.page, released) ∷ known) self.new }
    {
        let oldest = self.older.remove(0);
        self.releases[oldest.live.page as usize] = released;
    }

    /// The next version is the newest one. These rows were carried into it, and
    /// so many pins were taken on the version before. The words of the places
    /// are 0 afterwards.
    pub(crate) fn add(&mut self, version: u32, page: u32, taken: u32, places: &mut [u64])
        requires room { length self.old.older.items + 1 < self.old.sizes.versions }
        requires page { page < self.old.sizes.versions }
        requires rows { (place row : ℕ) → slice_index places.old place ≡ suc row → row < self.old.sizes.rows }
        ensures sizes { self.new.sizes ≡ self.old.sizes }
        ensures noted { (newest : Live) (older : List Older) (known : List (ℕ × ℕ)) → IsNoted newest older known self.old
            → ¬ (In page (pages_noted self.old.newest self.old.older.items))
            → IsNoted (record { version = version; page = page; base = known_release known page; carried = rows_of places.old })
            (record { live = newest; taken = taken } ∷ older) known self.new }
        ensures emptied { places.new ≡ replicate (length places.old) 0 }
    {
        self.carried.note(page, places);
        self.older.push_reserved(OlderVersion {
            live: self.newest,
            taken,
        });
        self.newest = LiveVersion {
            version,
            page,
            base: self.releases[page as usize],
        };
    }
}
