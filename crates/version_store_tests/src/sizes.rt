//! The sizes of a story's table.

ghost use Rattle.std.specs.Prelude.{◌≤◌};

use pin_rule::sizes::Sizes;

/// A number of the input, or 0.
pub(crate) fn number(text: &str) -> u64 {
    match text.trim().parse::<u64>() {
        Ok(number) => number,
        Err(_) => 0,
    }
}

/// The number, or the nearest that lies between two others.
pub(crate) fn bounded(number: u64, least: u32, most: u32) -> u32
    requires { least ≤ most }
    ensures { (least ≤ result) × (result ≤ most) }
{
    (number.min(most as u64) as u32).max(least)
}

/// The sizes that a line asks for, and how many passes.
#[derive(Clone, Copy)]
pub(crate) struct Wanted {
    /// Entries of the log.
    pub(crate) log: u64,
    /// Live versions, each with a page.
    pub(crate) versions: u64,
    /// Places of a page.
    pub(crate) places: u64,
    /// Rows of the whole table.
    pub(crate) rows: u64,
    /// Words of a row.
    pub(crate) width: u64,
    /// Pins over the table's life.
    pub(crate) pins: u64,
    /// How many passes the table is parted for.
    pub(crate) passes: u64,
}

impl Wanted {
    /// The largest sizes, and one pass.
    pub(crate) fn largest() -> Wanted {
        Wanted {
            log: 16384,
            versions: 16,
            places: 4096,
            rows: 4096,
            width: 512,
            pins: 2_147_483_648,
            passes: 1,
        }
    }

    /// The same but for one of them, as in `rows 2`.
    fn with(self, name: &str, amount: u64) -> Wanted {
        let mut wanted = self;
        match name {
            "log" => wanted.log = amount,
            "versions" => wanted.versions = amount,
            "places" => wanted.places = amount,
            "rows" => wanted.rows = amount,
            "width" => wanted.width = amount,
            "pins" => wanted.pins = amount,
            _ => wanted.passes = amount,
        }
        wanted
    }

    /// What stands before the commands of a line.
    pub(crate) fn read(text: &str) -> Wanted {
        let mut wanted = Wanted::largest();
        for size in text.split(',') {
            let (name, amount) = size.trim().split_once(' ').unwrap_or(("part", "1"));
            wanted = wanted.with(name, number(amount));
        }
        wanted
    }

    pub(crate) fn sizes(self) -> Sizes {
        Sizes {
            log: bounded(self.log, 1, 16384),
            versions: bounded(self.versions, 2, 16),
            places: bounded(self.places, 1, 4096),
            rows: bounded(self.rows, 1, 4096),
            width: bounded(self.width, 3, 512),
            pins: bounded(self.pins, 0, 2_147_483_648),
        }
    }
}
