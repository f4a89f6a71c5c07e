//! A bench pins its version and publishes new rows until none is left.

ghost use Rattle.std.specs.Prelude.{IfOk};
ghost use Rattle.version_store.specs.Means.{bench_of, lone_of};
ghost use Rattle.version_store_soak.specs.Working.{StaysSeated, HasPinsOfTable};

use crate::visiting::publish;
use pin_rule::content::AnyRow;
use slot_store::page::Put;
use version_store::bench::Bench;
use version_store::lone::Lone;

/// How many rows with new keys, from one on, are made until page or pool is full.
fn publish_new(page: &mut Lone<AnyRow>, first: u64, most: u32) -> u32
    ensures { StaysSeated (lone_of page.old) (lone_of page.new) }
{
    let mut made = 0u32;
    for new in 0..most {
        match publish(page, first.wrapping_add(new as u64)) {
            Put::Made => made = made.saturating_add(1),
            _ => break,
        }
    }
    made
}

/// Publishes rows with new keys until no place or no row is left. Answers how many were made.
pub(crate) fn fill(bench: Bench<AnyRow>, first: u64, most: u32) -> (Bench<AnyRow>, u32)
    requires { HasPinsOfTable (bench_of bench) }
    ensures { HasPinsOfTable (bench_of result.0) }
{
    match bench.pin() {
        Ok(mut lone) => {
            let made = publish_new(&mut lone, first, most);
            (lone.unpin(), made)
        }
        Err((bench, _)) => (bench, 0),
    }
}
