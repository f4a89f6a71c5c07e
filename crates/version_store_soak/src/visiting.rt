//! What a pass does: it pins, finds and publishes, and unpins, again and again.

ghost use Rattle.std.specs.Prelude.{◌<◌};
ghost use Rattle.slot_store.specs.Means.{means_of, pass_of};
ghost use Rattle.version_store_soak.specs.Working.{StaysSeated, IsBack};

use crate::asking::Work;
use crate::payload::{Payload, fits};
use pin_rule::content::AnyRow;
use slot_store::page::{Look, Page, Put};
use slot_store::pass::Pass;
use slot_store::pinned::Pinned;
use std::sync::atomic::{AtomicU64, Ordering};
use std::thread;

/// How often a pass pins at most.
const ROUNDS: u32 = 50_000;

/// What passes saw.
#[derive(Clone, Copy)]
pub(crate) struct Seen {
    /// How many pins were taken.
    pub(crate) pins: u64,
    /// How many answers did not fit the version that was pinned.
    pub(crate) misfits: u64,
    /// How many pins were at a version before one that the pass had seen, or showed a wrong entry of the log.
    pub(crate) falls: u64,
}

impl Seen {
    pub(crate) fn nothing() -> Seen {
        Seen {
            pins: 0,
            misfits: 0,
            falls: 0,
        }
    }

    /// What both saw.
    pub(crate) fn with(self, other: Seen) -> Seen {
        Seen {
            pins: self.pins.saturating_add(other.pins),
            misfits: self.misfits.saturating_add(other.misfits),
            falls: self.falls.saturating_add(other.falls),
        }
    }

    fn counted_misfit(self, misfit: bool) -> Seen {
        Seen {
            pins: self.pins,
            misfits: self.misfits.saturating_add(misfit as u64),
            falls: self.falls,
        }
    }

    fn counted_pin(self, fall: bool) -> Seen {
        Seen {
            pins: self.pins.saturating_add(1),
            misfits: self.misfits,
            falls: self.falls.saturating_add(fall as u64),
        }
    }
}

/// What a look for a key met.
#[derive(Clone, Copy, PartialEq, Eq)]
pub(crate) enum Met {
    /// A row that fits.
    Fitting,
    /// A row that does not.
    Misfit,
    /// No row, where another one had room.
    Nothing,
    /// No row, and no room.
    PageFull,
}

/// Looks for the key.
pub(crate) fn look<P: Page<AnyRow>>(page: &mut P, key: u64) -> Met
    ensures { StaysSeated (P.means page.old) (P.means page.new) }
{
    let version = page.version();
    match page.find(&[key]) {
        Look::Found(payload) => {
            if fits(key, payload, version) {
                return Met::Fitting;
            }
            Met::Misfit
        }
        Look::Initial { place: _ } => Met::Nothing,
        Look::PageFull => Met::PageFull,
    }
}

/// Publishes the row of the key.
pub(crate) fn publish<P: Page<AnyRow>>(page: &mut P, key: u64) -> Put
    ensures { StaysSeated (P.means page.old) (P.means page.new) }
{
    let payload = Payload::of(key, page.version());
    page.publish(&[key], payload.words())
}

/// Whether what a look meets after a publication fits it.
fn is_answered(put: Put, met: Met) -> bool {
    match put {
        Put::Made | Put::Already => met == Met::Fitting,
        Put::PageFull => met == Met::PageFull || met == Met::Fitting,
        Put::PoolFull => met != Met::Misfit,
        Put::TooWide => false,
    }
}

/// Whether the answers about one key fit the version: it is found, or published and then looked for again.
fn is_right(page: &mut Pinned<AnyRow>, key: u64) -> bool
    ensures { StaysSeated (means_of page.old) (means_of page.new) }
{
    match look(page, key) {
        Met::Fitting => true,
        Met::Misfit => false,
        Met::Nothing | Met::PageFull => {
            let put = publish(page, key);
            let met = look(page, key);
            is_answered(put, met)
        }
    }
}

/// Whether the entry before this version is the one that the editor wrote.
fn is_entry(page: &mut Pinned<AnyRow>, version: u32) -> bool
    ensures { StaysSeated (means_of page.old) (means_of page.new) }
{
    if version == 0 || page.version() < version {
        return version == 0;
    }
    let words = page.log_entry(version - 1);
    words[0] == version as u64 && words[31] == version as u64
}

/// Asks for some keys, from one on.
fn ask(page: &mut Pinned<AnyRow>, work: Work, first: u64, seen: Seen) -> Seen
    ensures { StaysSeated (means_of page.old) (means_of page.new) }
{
    let mut seen = seen;
    for asked in 0..work.at_once {
        let key = first.wrapping_add(asked) % work.keys.max(1);
        let right = is_right(page, key);
        seen = seen.counted_misfit(!right);
    }
    seen
}

/// Pins, asks for some keys, looks at the log, and unpins.
fn visit(pass: Pass<AnyRow>, work: Work, first: u64, seen: Seen) -> (Pass<AnyRow>, Seen)
    ensures { IsBack (pass_of pass) (pass_of result.0) }
{
    let front = pass.front();
    match pass.pin() {
        Ok(pinned) => {
            let mut pinned = pinned;
            let seen = ask(&mut pinned, work, first, seen);
            let version = pinned.version();
            let newest = is_entry(&mut pinned, version);
            let earlier = is_entry(&mut pinned, version / 2);
            let fell = version < front || !newest || !earlier;
            (pinned.unpin(), seen.counted_pin(fell))
        }
        Err((pass, _)) => (pass, seen),
    }
}

/// Visits the newest version again and again, until the last one was made. The visits of all passes are counted
/// together. Each ends with a turn for the others, when no pin is out, so that the editor seldom waits for a pass that
/// has no turn.
pub(crate) fn visit_all(pass: Pass<AnyRow>, work: Work, visits: &AtomicU64) -> (Pass<AnyRow>, Seen)
    ensures { IsBack (pass_of pass) (pass_of result.0) }
{
    let mut pass = pass;
    let mut seen = Seen::nothing();
    for round in 0..ROUNDS {
        let first = (round as u64).wrapping_mul(work.at_once);
        let (next, told) = visit(pass, work, first, seen);
        pass = next;
        seen = told;
        visits.fetch_add(1, Ordering::SeqCst);
        if pass.front() >= work.versions {
            break;
        }
        thread::yield_now();
    }
    (pass, seen)
}
