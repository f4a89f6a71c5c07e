//! The numbers of live things, found by how they are written.
//!
//! What ended keeps its key without a number, so that nothing is ever taken out.

ghost use Rattle.std.specs.Prelude.{◌≡◌, ◌<◌, Some};
ghost use Rattle.indexmap.specs.IndexMap.{spare, Updates};
ghost use Rattle.edit_log.specs.Lists.{live_number};

use forest::RuleId;
use indexmap::IndexMap;
use std::hash::Hash;

/// The live number of the key.
pub(crate) fn live_number<K: Hash + Eq>(
    numbers: &IndexMap<K, Option<RuleId>>,
    key: &K,
) -> Option<RuleId>
    ensures { result ≡ live_number K.eq numbers.now key.now }
{
    match numbers.get(key) {
        Some(number) => *number,
        None => None,
    }
}

/// Gives the key this number, or none.
pub(crate) fn set_number<K: Hash + Eq + Drop>(
    numbers: &mut IndexMap<K, Option<RuleId>>,
    key: K,
    number: Option<RuleId>,
)
    requires { 0 < spare numbers.old }
    ensures { Updates K.eq numbers.old numbers.new key (Some number) }
{
    match numbers.insert(key, number) {
        Ok(_) => {}
        Err(_) => unreachable!(),
    }
}
