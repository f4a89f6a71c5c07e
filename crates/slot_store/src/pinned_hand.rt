//! A hand at work on the page of the version that it has pinned.
ghost use Rattle.std.specs.Prelude.{◌≡◌, ◌≢◌, ◌≤◌, ◌<◌, Some, None, length};
ghost use Rattle.pin_rule.specs.declared.view.Role.{Role};
ghost use Rattle.pin_rule.specs.Hands.{view_of, table_of};
ghost use Rattle.pin_rule.specs.Views.{now};

use crate::catching::read_known;
use crate::claiming::claim_row;
use crate::finding::{Glance, look};
use crate::page::Put;
use crate::placing::{Placed, place_row};
use crate::site::{Site, page_in, version_in};
use pin_rule::content::Content;
use pin_rule::hand::Hand;
use pin_rule::sizes::Sizes;

/// A hand with a pinned version, whose page it reads and extends. The editor's
/// hand may be one, while it gives up no version.
#[derive(Drop)]
pub struct PinnedHand<C: Content> {
    /// The hand that makes the steps.
    pub(crate) hand: Hand<C>,
    /// The version that is pinned, with its page and the table's sizes.
    pub(crate) site: Site,
    /// The row that is tried first where a free one is looked for.
    pub(crate) next: u32,
    /// How many pins are left.
    pub(crate) left: u32,
    /// Room for a row. It holds the payload that was found last.
    pub(crate) buffer: Vec<u64>,
    ghost measured: { (view_of hand).sizes ≡ site.sizes },
    ghost shared: { (view_of hand).share ≢ 0 },
    ghost pinned: { (view_of hand).pinned ≡ Some record { version = site.version; page = site.page } },
    ghost caught_up: { site.version ≡ now (view_of hand) },
    ghost free: { (view_of hand).own ≡ None },
    ghost settled: { (r : Role) → (view_of hand).role ≡ Some r → r.giving_up ≡ None },
    ghost counted: { left ≡ (view_of hand).pins_left },
    ghost next_in: { next ≤ site.sizes.rows },
    ghost room: { site.sizes.width ≤ length buffer.items },
}

impl<C: Content> PinnedHand<C> {
    ghost use Rattle.std.specs.Prelude.{◌↔◌, ◌+◌, ◌-◌, ℕ, take};
    ghost use Rattle.pin_rule.specs.Layout.{version_named, page_named};
    ghost use Rattle.pin_rule.specs.Steps.{pin_of, after_unpin};
    ghost use Rattle.pin_rule.specs.Told.{IsTold, IsCurrentFor};
    ghost use Rattle.slot_store.specs.Keys.{row_of};
    ghost use Rattle.slot_store.specs.Logs.{IsEntryOf, ReadsKnown};
    ghost use Rattle.slot_store.specs.Answers.{Publishes};
    ghost use Rattle.slot_store.specs.Known.{IsSoleAt, PutKnows};
    ghost use Rattle.slot_store.specs.Walks.{Glances};
    ghost use Rattle.slot_store.specs.PinnedHands.{view_in, site_in, place_in, meaning_in, buffer_in, IsSameHand};

    /// A hand that has taken its pin with this word met. It tries `next` first
    /// for a free row, and has so many pins left. The buffer has room for a row.
    pub fn new(
        hand: Hand<C>,
        sizes: Sizes,
        met: u64,
        next: u32,
        left: u32,
        buffer: Vec<u64>,
    ) -> PinnedHand<C>
        requires sizes { (view_of hand).sizes ≡ sizes }
        requires share { (view_of hand).share ≢ 0 }
        requires pinned { (view_of hand).pinned ≡ Some (pin_of met) }
        requires caught_up { version_named met ≡ now (view_of hand) }
        requires names { IsCurrentFor (view_of hand) met }
        requires free { (view_of hand).own ≡ None }
        requires settled { (r : Role) → (view_of hand).role ≡ Some r → r.giving_up ≡ None }
        requires next { next ≤ sizes.rows }
        requires left { left ≡ (view_of hand).pins_left }
        requires room { sizes.width ≤ length buffer.items }
        ensures hand { result.hand ≡ hand }
        ensures site { (result.site.sizes ≡ sizes) × (result.site.version ≡ version_named met) × (result.site.page ≡ page_named met) }
        ensures buffer { result.buffer ≡ buffer }
    {
        let site = Site {
            sizes,
            page: page_in(met),
            version: version_in(met),
        };
        PinnedHand {
            hand,
            site,
            next,
            left,
            buffer,
        }
    }

    /// The version.
    pub fn version(&self) -> u32
        ensures { result ≡ now (view_in self.now) }
    {
        self.site.version
    }

    /// How many pins are left.
    pub fn pins_left(&self) -> u32
        ensures { result ≡ (view_in self.now).pins_left }
    {
        self.left
    }

    /// An entry of the log.
    pub fn log_entry(&mut self, index: u32) -> [u64; 32]
        requires { index < now (view_in self.old) }
        ensures entry { IsEntryOf (view_in self.old).log index result }
        ensures lawful { C.lawful (view_in self.new).log }
        ensures read { ReadsKnown (view_in self.old) (view_in self.new) }
        ensures same { IsSameHand self.old self.new }
        ensures buffer { self.new.buffer ≡ self.old.buffer }
    {
        read_known(&mut self.hand, self.site, index)
    }

    /// Looks for the key. The payload is left in the buffer.
    pub fn look(&mut self, key: &[u64]) -> Glance
        requires { 0 < length key.now }
        ensures look { Glances (site_in self.old) (C.fits (view_in self.old).log) (view_in self.old) (view_in self.new) key.now (buffer_in self.new) result }
        ensures told { IsTold (C.fits (view_in self.new).log) (view_in self.new) (site_in self.new).version }
        ensures same { IsSameHand self.old self.new }
        ensures room { length (buffer_in self.new) ≡ length (buffer_in self.old) }
    {
        look(&mut self.hand, self.site, key, self.buffer.as_mut_slice())
    }

    /// The first words of the buffer.
    pub fn payload(&self, count: usize) -> &[u64]
        requires { count ≤ length (buffer_in self.now) }
        ensures { result.now ≡ take count (buffer_in self.now) }
    {
        &self.buffer.as_slice()[..count]
    }

    /// Publishes a row, if the page has none with this key.
    pub fn publish(&mut self, key: &[u64], payload: &[u64]) -> Put
        requires key { 0 < length key.now }
        requires fits { C.fits (view_in self.old).log (row_of key.now payload.now) }
        ensures put { Publishes (meaning_in self.old) (meaning_in self.new) key.now payload.now result }
        ensures wide { (result ≡ Put.TooWide) ↔ ((site_in self.old).sizes.width - 2 < length key.now + length payload.now) }
        ensures role { (view_in self.new).role ≡ (view_in self.old).role }
        ensures log_words { (view_in self.new).log_words ≡ (view_in self.old).log_words }
        ensures knows { IsSoleAt (site_in self.old) (view_in self.old)
            → PutKnows (site_in self.old).sizes (view_in self.old).known (view_in self.new).known key.now payload.now result }
        ensures same { IsSameHand self.old self.new }
        ensures buffer { self.new.buffer ≡ self.old.buffer }
    {
        if key.len() + payload.len() > self.site.sizes.width as usize - 2 {
            return Put::TooWide;
        }
        let Some(row) = claim_row(&mut self.hand, self.site, self.next) else {
            return Put::PoolFull;
        };
        self.next = row + 1;
        match place_row(&mut self.hand, self.site, row, key, payload) {
            Placed::Here => Put::Made,
            Placed::Already => {
                self.hand.give_back(row);
                Put::Already
            }
            Placed::Full => {
                self.hand.give_back(row);
                Put::PageFull
            }
        }
    }

    /// Drops the pin. Gives the hand and the buffer back.
    pub fn unpin(self) -> (Hand<C>, Vec<u64>)
        ensures view { (met : ℕ) × (view_of result.0 ≡ after_unpin (view_in self) (site_in self).page met) }
        ensures table { table_of result.0 ≡ place_in self }
        ensures buffer { result.1 ≡ self.buffer }
    {
        let PinnedHand {
            hand,
            site,
            next: _,
            left: _,
            buffer,
        } = self;
        let mut hand = hand;
        hand.unpin(site.page);
        (hand, buffer)
    }
}
