//! What is left of a run: the bench over which its commands ran.

use bench_io::{PlainSink, PlainSource};
use graph_content::{GraphRows, Kind, kind_of};
use std::alloc::{AllocError, Global};
use version_store::bench::Bench;
use workbench::run;

/// The kind of the row at a place of the page, if there is one.
fn kind_at(bench: &mut Bench<GraphRows>, place: u32) -> Option<Kind> {
    if place >= bench.places() {
        return None;
    }
    match bench.row(place) {
        Some(row) => Some(kind_of(row)),
        None => None,
    }
}

/// How many item sets and how many scanner states the page has.
fn count_kinds(bench: &mut Bench<GraphRows>) -> (u32, u32) {
    let mut items = 0u32;
    let mut scan = 0u32;
    for place in 0..bench.places() {
        match kind_at(bench, place) {
            Some(Kind::Items) => items = items.saturating_add(1),
            Some(Kind::Scan) => scan = scan.saturating_add(1),
            None => {}
        }
    }
    (items, scan)
}

/// The version, the pins left and the rows of the bench that the run over the script hands back.
pub(crate) fn told_bench(alloc: Global, script: &[u8]) -> Result<String, AllocError> {
    let mut source = PlainSource::new(script.to_vec(alloc)?);
    let mut sink = PlainSink::new(alloc)?;
    let ended = run(alloc, &["workbench"], &mut source, &mut sink);
    let Some(mut bench) = ended.bench else {
        return String::from_str(alloc, "no bench");
    };
    let (items, scan) = count_kinds(&mut bench);
    let version = bench.version();
    let pins = bench.pins_left();
    format!(in alloc; "version {version}, pins {pins}, items {items}, scan {scan}")
}
