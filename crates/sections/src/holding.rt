//! How many keys the version of a bench holds.

ghost use Rattle.std.specs.Prelude.{◌≡◌, ◌<◌, ◌+◌, ◌^◌};
ghost use Rattle.edit_log.specs.History.{Grammar};
ghost use Rattle.graph_content.specs.Contents.{IsLogOfGrammar};
ghost use Rattle.version_store.specs.Means.{bench_of, StandsAt};
ghost use Rattle.sections.specs.Holding.{HoldsCounts};
ghost use Rattle.sections.specs.CountedPlaces.{IsSameBench, ReadsKind, counted_with};

use graph_content::{GraphRows, Kind, kind_of};
use version_store::bench::Bench;

/// The kind of the row that stands at a place of the page.
fn kind_at(bench: &mut Bench<GraphRows>, place: u32) -> Option<Kind>
    requires { place < (bench_of bench.old).sizes.places }
    ensures { ReadsKind (bench_of bench.old) (bench_of bench.new) (StandsAt bench.old) (StandsAt bench.new) place result }
{
    match bench.row(place) {
        Some(row) => Some(kind_of(row)),
        None => None,
    }
}

/// How many item sets and scanner states there are with this one.
fn counted_with(kind: Option<Kind>, held: (u32, u32)) -> (u32, u32)
    requires { held.0 + held.1 + 1 < 2 ^ 32 }
    ensures { result ≡ counted_with kind held }
{
    match kind {
        Some(Kind::Items) => (held.0 + 1, held.1),
        Some(Kind::Scan) => (held.0, held.1 + 1),
        None => held,
    }
}

/// How many keys of item sets and of scanner states the page has the expansions of. It looks at each place once, and
/// takes no memory.
pub(crate) fn count_held(bench: &mut Bench<GraphRows>) -> (u32, u32)
    ensures counts { (grammar : Grammar) → IsLogOfGrammar (bench_of bench.old).log grammar
        → HoldsCounts grammar (bench_of bench.old).graph result.0 result.1 }
    ensures same { IsSameBench (bench_of bench.old) (bench_of bench.new) }
{
    let places = bench.places();
    let mut held = (0, 0);
    for place in 0..places {
        let kind = kind_at(bench, place);
        held = counted_with(kind, held);
    }
    held
}
