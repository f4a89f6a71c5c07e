//! How often expansions came in each way, counted over what is kept.

ghost use Rattle.std.specs.Prelude.{◌≡◌, ◌<◌, length, slice_get, Some};
ghost use Rattle.live_graph.specs.Tallying.{counted, tally_of, AddsUp};
ghost use Rattle.live_graph.specs.Answers.{origins};

use crate::answer::Answer;
use crate::origin::Origin;
use crate::tally::Tally;
use indexmap::IndexMap;
use std::hash::Hash;

/// Counts one key more.
fn count(tally: Tally, origin: Origin) -> Tally
    requires room { tally.reached < 4294967295 }
    requires sum { AddsUp tally }
    ensures counted { result ≡ counted origin tally }
    ensures sum { AddsUp result }
{
    let reached = tally.reached + 1;
    match origin {
        Origin::Found => Tally {
            reached,
            found: tally.found + 1,
            ..tally
        },
        Origin::Made => Tally {
            reached,
            made: tally.made + 1,
            ..tally
        },
        Origin::Raced => Tally {
            reached,
            raced: tally.raced + 1,
            ..tally
        },
        Origin::Alone => Tally {
            reached,
            alone: tally.alone + 1,
            ..tally
        },
    }
}

/// How the expansion came that is kept at the place.
fn origin_at<K: Eq + Hash, E>(kept: &IndexMap<K, Answer<E>>, place: usize) -> Origin
    requires { place < length kept.now.entries }
    ensures { (key : K) × (slice_get (origins kept.now.entries) place ≡ Some (key, result)) }
{
    match kept.get_index(place) {
        Some((_, answer)) => answer.origin,
        None => unreachable!(),
    }
}

/// The tally of the keys that are kept.
pub(crate) fn tally_of<K: Eq + Hash, E>(kept: &IndexMap<K, Answer<E>>) -> Tally
    requires { length kept.now.entries < 4294967296 }
    ensures { result ≡ tally_of (origins kept.now.entries) }
{
    let mut tally = Tally::none();
    for place in 0..kept.len() {
        tally = count(tally, origin_at(kept, place));
    }
    tally
}
