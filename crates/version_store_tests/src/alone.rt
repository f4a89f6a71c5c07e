//! A table that is parted and gathered, and then edited by its bench alone.

ghost use Rattle.slot_store.specs.Means.{means_of, pass_of};
ghost use Rattle.version_store_tests.specs.Users.{IsSamePage, IsSamePass};

use crate::commands::entry_from;
use crate::keep_even::KeepEven;
use crate::sizes::Wanted;
use pin_rule::choosers::KeepAll;
use pin_rule::content::AnyRow;
use slot_store::page::Page;
use slot_store::pass::Pass;
use slot_store::pinned::Pinned;
use std::alloc::{AllocError, Global};
use version_store::bench::Bench;
use version_store::gathering::gather;

/// Publishes a row for each key, with ten times the key as payload.
fn publish_all(page: &mut Pinned<AnyRow>, keys: &[u64])
    ensures { IsSamePage (means_of page.old) (means_of page.new) }
{
    for at in 0..keys.len() {
        let key = keys[at];
        page.publish(&[key], &[key.wrapping_mul(10)]);
    }
}

/// Pins, publishes, and unpins.
fn visit(pass: Pass<AnyRow>, keys: &[u64]) -> Pass<AnyRow>
    ensures { IsSamePass (pass_of pass) (pass_of result) }
{
    match pass.pin() {
        Ok(mut pinned) => {
            publish_all(&mut pinned, keys);
            pinned.unpin()
        }
        Err((pass, _)) => pass,
    }
}

/// A bench at version 2 with the rows of some keys, that was parted and gathered
/// before. All memory is taken before it is parted, since a part that is dropped
/// alone is lost.
fn gathered(alloc: Global) -> Result<Bench<AnyRow>, AllocError> {
    let wanted = Wanted::read("log 6, versions 4, places 8, rows 8, width 8, pins 100");
    let bench = Bench::make(alloc, wanted.sizes())?;
    let mut all = Vec::with_capacity(alloc, 1)?;
    let (mut editor, mut passes) = match bench.part(1) {
        Ok(parts) => parts,
        Err((_, error)) => return Err(error),
    };
    let pass = passes.remove(0);
    let pass = visit(pass, &[2, 3, 4, 5]);
    let _first = editor.edit(&entry_from(1), &mut KeepAll);
    let pass = visit(pass, &[6]);
    let _second = editor.edit(&entry_from(2), &mut KeepAll);
    all.push_reserved(pass);
    Ok(gather(editor, all))
}

/// The key and the payload at a place of the page.
fn told_row(alloc: Global, bench: &mut Bench<AnyRow>, place: u32) -> Result<String, AllocError> {
    if place >= bench.places() {
        return String::from_str(alloc, " no place");
    }
    match bench.row(place) {
        Some(row) => {
            let key = row.get(2).copied().unwrap_or(0);
            let payload = row.get(3).copied().unwrap_or(0);
            format!(in alloc; " {key}:{payload}")
        }
        None => String::from_str(alloc, " -"),
    }
}

/// The keys and payloads of the bench's rows, place by place.
fn told_rows(alloc: Global, bench: &mut Bench<AnyRow>) -> Result<String, AllocError> {
    let mut told = String::new(alloc);
    for place in 0..bench.places() {
        told.push_str(&told_row(alloc, bench, place)?)?;
    }
    Ok(told)
}

/// Makes a version alone.
fn told_edit_alone(
    alloc: Global,
    bench: &mut Bench<AnyRow>,
    first: u64,
) -> Result<String, AllocError> {
    match bench.edit_alone(&entry_from(first), &mut KeepEven) {
        Ok(version) => format!(in alloc; "version {version}"),
        Err(full) => format!(in alloc; "log full {}", full.entries),
    }
}

/// How many of so many edits of a new bench were made, and how many were refused since its log is full.
pub(crate) fn told_counts(alloc: Global, log: u64, edits: u64) -> Result<String, AllocError> {
    let mut wanted = Wanted::read("versions 2, places 8, rows 8, width 8, pins 100");
    wanted.log = log;
    let mut bench = Bench::make(alloc, wanted.sizes())?;
    let mut made = 0u64;
    let mut refused = 0u64;
    for edit in 0..edits {
        match bench.edit_alone(&entry_from(edit), &mut KeepEven) {
            Ok(_) => made = made.saturating_add(1),
            Err(_) => refused = refused.saturating_add(1),
        }
    }
    let rows = told_rows(alloc, &mut bench)?;
    let version = bench.version();
    format!(in alloc; " made {made} refused {refused} at version {version}:{rows}")
}

/// What the bench has once it is gathered, and after each of so many edits that
/// keep the even keys.
pub(crate) fn told_alone(alloc: Global, edits: u64) -> Result<String, AllocError> {
    let mut bench = gathered(alloc)?;
    let rows = told_rows(alloc, &mut bench)?;
    let version = bench.version();
    let pins = bench.pins_left();
    let mut told = format!(in alloc; " version {version} pins {pins}:{rows}")?;
    for edit in 0..edits.min(16) {
        let answer = told_edit_alone(alloc, &mut bench, edit)?;
        let rows = told_rows(alloc, &mut bench)?;
        told.push_str(&format!(in alloc; "; {answer}:{rows}")?)?;
    }
    Ok(told)
}
