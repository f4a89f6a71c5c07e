//! What a line asks for.

ghost use Rattle.std.specs.Prelude.{◌≤◌};

use pin_rule::limits::MOST_PINS;
use pin_rule::sizes::Sizes;

/// What passes and editor do.
#[derive(Clone, Copy)]
pub(crate) struct Work {
    /// How many versions are made.
    pub(crate) versions: u32,
    /// All rows that passes publish have keys below this one.
    pub(crate) keys: u64,
    /// How many keys a pass asks for under one pin.
    pub(crate) at_once: u64,
    /// How often the passes pin, all together, before the editor makes the next version.
    pub(crate) visits: u64,
}

impl Work {
    /// The same with few keys under one pin, since in a page that is full each look goes through all places.
    pub(crate) fn for_full_page(self) -> Work {
        Work {
            versions: self.versions,
            keys: self.keys,
            at_once: self.at_once.min(4),
            visits: self.visits,
        }
    }
}

/// What a line asks for.
#[derive(Clone, Copy)]
pub(crate) struct Asked {
    /// How large the table is.
    pub(crate) sizes: Sizes,
    /// How many passes work beside the editor.
    pub(crate) passes: u32,
    /// What they do.
    pub(crate) work: Work,
    ghost passes_in: { (1 ≤ passes) × (passes ≤ 16) },
}

/// A number of the input, or 0.
fn number(text: &str) -> u64 {
    match text.trim().parse::<u64>() {
        Ok(number) => number,
        Err(_) => 0,
    }
}

/// A table that is soon full: fewer places and rows than keys, and two versions at most.
fn small_sizes() -> Sizes {
    Sizes {
        log: 16384,
        versions: 2,
        places: 8,
        rows: 8,
        width: 8,
        pins: MOST_PINS,
    }
}

/// What so many passes do, until so many versions were made.
fn work_of(sizes: Sizes, counts: &str, keys: u64, at_once: u64, visits: u64) -> Asked {
    let (passes, versions) = counts.split_once(' ').unwrap_or((counts, "1"));
    let passes = number(passes).min(16) as u32;
    let versions = number(versions).min(16384) as u32;
    Asked {
        sizes,
        passes: passes.max(1),
        work: Work {
            versions,
            keys,
            at_once,
            visits,
        },
    }
}

/// What a line asks for, if it is one of `soak` or of `full`.
pub(crate) fn asked_of(line: &str) -> Option<Asked> {
    if let Some(counts) = line.strip_prefix("soak ") {
        return Some(work_of(small_sizes(), counts, 12, 12, 16));
    }
    let counts = line.strip_prefix("full ")?;
    Some(work_of(Sizes::full(), counts, 5000, 100, 8))
}
