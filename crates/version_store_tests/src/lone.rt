//! A bench that pins its version, and finds and publishes there while nobody
//! else uses the table.

use crate::commands::{entry_from, told_publish};
use crate::keep_even::KeepEven;
use crate::sizes::Wanted;
use pin_rule::content::AnyRow;
use slot_store::page::{Look, Page};
use std::alloc::{AllocError, Global};
use version_store::bench::Bench;
use version_store::lone::Lone;

/// Whether the page has a row with the key.
fn told_look<P: Page<AnyRow>>(page: &mut P, key: u64) -> &'static str {
    match page.find(&[key]) {
        Look::Found(_) => "found",
        Look::Initial { place: _ } => "none",
        Look::PageFull => "page full",
    }
}

/// What a look for each key answers, and then a publication of a row with it.
fn told_keys(alloc: Global, page: &mut Lone<AnyRow>, keys: u64) -> Result<String, AllocError> {
    let mut told = String::new(alloc);
    for key in 0..keys.min(16) {
        let look = told_look(page, key);
        let put = told_publish(page, key, &[key.wrapping_mul(10)]);
        told.push_str(&format!(in alloc; " {key} {look} {put},")?)?;
    }
    Ok(told)
}

/// Pins, looks for each key and publishes it, and unpins.
fn told_visit(
    alloc: Global,
    bench: Bench<AnyRow>,
    keys: u64,
) -> Result<(Bench<AnyRow>, String), AllocError> {
    match bench.pin() {
        Ok(mut lone) => {
            let told = told_keys(alloc, &mut lone, keys)?;
            Ok((lone.unpin(), told))
        }
        Err((bench, _)) => Ok((bench, String::from_str(alloc, " spent")?)),
    }
}

/// What a new bench with four places and two pins answers: it is visited, keeps
/// the even keys in the next version, and is visited twice more.
pub(crate) fn told_lone(alloc: Global, rows: u64, keys: u64) -> Result<String, AllocError> {
    let mut wanted = Wanted::read("log 2, versions 2, places 4, width 8, pins 2");
    wanted.rows = rows;
    let bench = Bench::make(alloc, wanted.sizes())?;
    let (mut bench, first) = told_visit(alloc, bench, keys)?;
    let _edited = bench.edit_alone(&entry_from(1), &mut KeepEven);
    let (bench, second) = told_visit(alloc, bench, keys)?;
    let (bench, third) = told_visit(alloc, bench, keys)?;
    let version = bench.version();
    let pins = bench.pins_left();
    format!(in alloc; "{first}; version {version} pins {pins}:{second};{third}")
}
