//! Passes and an editor that work at the same time.

use crate::keep_even::KeepEven;
use crate::sizes::{Wanted, bounded, number};
use pin_rule::choosers::{KeepAll, KeepNone};
use pin_rule::content::AnyRow;
use slot_store::page::{Look, Page, Put};
use slot_store::pass::Pass;
use slot_store::pinned::Pinned;
use std::alloc::{AllocError, Global};
use std::thread;
use std::thread::Threads;
use version_store::bench::Bench;
use version_store::editor::Editor;

/// Which rows each of the versions keeps of the one before.
#[derive(Clone, Copy, PartialEq, Eq)]
pub(crate) enum Keeping {
    All,
    None,
    Even,
}

const KEYS: u64 = 12;

const ROUNDS: u32 = 40;

/// How often a pass was answered, how many of the answers fit the version that it had pinned, and how often that
/// version was an older one than before or its log was a wrong one.
#[derive(Clone, Copy)]
struct Report {
    /// How many keys were asked for, over all pins.
    answers: u32,
    /// For how many of them the answers fit the version.
    fitting: u32,
    /// How many pins were at a version before one that the pass had seen, or showed a wrong log.
    falls: u32,
}

/// Whether a row that was published at a version may be found at another.
fn may_be_found(keeping: Keeping, key: u64, made: u64, version: u64) -> bool {
    match keeping {
        Keeping::All => made <= version,
        Keeping::None => made == version,
        Keeping::Even => made == version || (made < version && key % 2 == 0),
    }
}

/// The version in which the row was published, if it is found.
fn found(page: &mut Pinned<AnyRow>, key: u64) -> Option<u64> {
    match page.find(&[key]) {
        Look::Found(payload) => payload.first().copied(),
        Look::Initial { place: _ } => None,
        Look::PageFull => None,
    }
}

/// Whether the answers about one key fit the version: it is found, or published and then found.
fn is_right(page: &mut Pinned<AnyRow>, keeping: Keeping, key: u64) -> bool {
    let version = page.version() as u64;
    match found(page, key) {
        Some(made) => may_be_found(keeping, key, made, version),
        None => {
            let put = page.publish(&[key], &[version]);
            let again = found(page, key);
            match put {
                Put::Made | Put::Already => again == Some(version),
                Put::PageFull | Put::PoolFull => again.is_none() || again == Some(version),
                Put::TooWide => false,
            }
        }
    }
}

/// Whether the entry of the log is the one that the editor writes there.
fn is_entry(page: &mut Pinned<AnyRow>, index: u32) -> bool {
    if index >= page.version() {
        return false;
    }
    let words = page.log_entry(index);
    words[0] == index as u64 + 1 && words[31] == index as u64 + 1
}

/// Whether all entries of the log are.
fn is_log(page: &mut Pinned<AnyRow>) -> bool {
    for index in 0..page.version() {
        if !is_entry(page, index) {
            return false;
        }
    }
    true
}

/// Pins, asks for all keys, and unpins.
fn visit(pass: Pass<AnyRow>, keeping: Keeping, report: Report) -> (Pass<AnyRow>, Report) {
    let front = pass.front();
    match pass.pin() {
        Ok(pinned) => {
            let mut pinned = pinned;
            let mut report = report;
            for key in 0..KEYS {
                report.answers = report.answers.saturating_add(1);
                if is_right(&mut pinned, keeping, key) {
                    report.fitting = report.fitting.saturating_add(1);
                }
            }
            if pinned.version() < front || !is_log(&mut pinned) {
                report.falls = report.falls.saturating_add(1);
            }
            (pinned.unpin(), report)
        }
        Err((pass, _)) => (pass, report),
    }
}

/// The work of one pass.
fn work(pass: Pass<AnyRow>, keeping: Keeping) -> Report {
    let mut pass = pass;
    let mut report = Report {
        answers: 0,
        fitting: 0,
        falls: 0,
    };
    for _round in 0..ROUNDS {
        let (next, told) = visit(pass, keeping, report);
        pass = next;
        report = told;
    }
    report
}

/// The work of all passes, each in a thread of its own.
fn work_all<R: Threads + Sync>(rt: &R, passes: Vec<Pass<AnyRow>>, keeping: Keeping) -> Report {
    let mut passes = passes;
    let Some(first) = passes.pop() else {
        return Report {
            answers: 0,
            fitting: 0,
            falls: 0,
        };
    };
    let (mine, others) = thread::join(
        rt,
        move || work(first, keeping),
        move || work_all(rt, passes, keeping),
    );
    Report {
        answers: mine.answers.saturating_add(others.answers),
        fitting: mine.fitting.saturating_add(others.fitting),
        falls: mine.falls.saturating_add(others.falls),
    }
}

/// Tries to make versions, and answers how many were made: as many as can be live, and more where older ones were
/// given up.
fn make_versions(editor: Editor<AnyRow>, keeping: Keeping, times: u32) -> u32 {
    let mut editor = editor;
    for _time in 0..times {
        let entry = [editor.version() as u64 + 1; 32];
        let _made = match keeping {
            Keeping::All => editor.edit(&entry, &mut KeepAll),
            Keeping::None => editor.edit(&entry, &mut KeepNone),
            Keeping::Even => editor.edit(&entry, &mut KeepEven),
        };
        editor.give_up();
    }
    editor.version()
}

/// Passes and an editor at the same time.
fn together<R: Threads + Sync>(
    rt: &R,
    editor: Editor<AnyRow>,
    passes: Vec<Pass<AnyRow>>,
    keeping: Keeping,
    times: u32,
) -> (u32, Report) {
    thread::join(
        rt,
        move || make_versions(editor, keeping, times),
        move || work_all(rt, passes, keeping),
    )
}

/// A table that is soon full: fewer places and rows than keys, and two versions at most.
fn wanted_small() -> Wanted {
    let mut wanted = Wanted::largest();
    wanted.log = 4096;
    wanted.versions = 2;
    wanted.places = 8;
    wanted.rows = 8;
    wanted.width = 8;
    wanted
}

/// The table of those that work together: each version may have new rows of all keys.
fn wanted() -> Wanted {
    let mut wanted = Wanted::largest();
    wanted.log = 32;
    wanted.places = 256;
    wanted.rows = 1024;
    wanted.width = 8;
    wanted
}

fn told_keeping<R: Threads + Sync>(
    rt: &R,
    alloc: Global,
    wanted: Wanted,
    passes: u64,
    keeping: Keeping,
    times: u32,
) -> Result<String, AllocError> {
    let bench = Bench::make(alloc, wanted.sizes())?;
    let (editor, passes) = match bench.part(bounded(passes, 1, 16)) {
        Ok(parts) => parts,
        Err((_, error)) => return Err(error),
    };
    let (versions, report) = together(rt, editor, passes, keeping, times);
    let Report {
        answers,
        fitting,
        falls,
    } = report;
    let least = wanted.versions.saturating_sub(1).min(times as u64);
    let versions = (versions as u64).min(least);
    format!(in alloc;
        " {versions} or more versions, {answers} answers of which {fitting} fit, {falls} falls;"
    )
}

/// So many passes beside an editor that keeps all rows, no row, and every second row.
pub(crate) fn told_together<R: Threads + Sync>(
    rt: &R,
    alloc: Global,
    passes: &str,
) -> Result<String, AllocError> {
    let passes = number(passes);
    let mut told = told_keeping(rt, alloc, wanted(), passes, Keeping::All, 20)?;
    told.push_str(&told_keeping(rt, alloc, wanted(), passes, Keeping::None, 20)?)?;
    told.push_str(&told_keeping(rt, alloc, wanted(), passes, Keeping::Even, 20)?)?;
    Ok(told)
}

/// The same over a small table, with thousands of edits that are tried.
pub(crate) fn told_soak<R: Threads + Sync>(
    rt: &R,
    alloc: Global,
    passes: &str,
) -> Result<String, AllocError> {
    let passes = number(passes);
    let small = wanted_small();
    let mut told = told_keeping(rt, alloc, small, passes, Keeping::All, 4000)?;
    told.push_str(&told_keeping(rt, alloc, small, passes, Keeping::None, 4000)?)?;
    told.push_str(&told_keeping(rt, alloc, small, passes, Keeping::Even, 4000)?)?;
    Ok(told)
}
