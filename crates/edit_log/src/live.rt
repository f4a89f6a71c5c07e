//! The live definitions, in their order.

ghost use Rattle.std.specs.Prelude.{◌≡◌, ◌<◌, ◌≤◌, ◌+◌, ◌-◌, ◌⊎◌, Contains, vec_len, vec_capacity};
ghost use Rattle.std.specs.List.Sorted.{IsStrictlySortedBy};
ghost use Rattle.edit_log.specs.Live.{definition_cmp};
ghost use Rattle.edit_log.specs.Lookups.{ListsDefinitions};

use crate::definitions::DefId;
use std::cmp::Ordering;

/// Literals by the number of their symbol, and then tokens and skips by theirs.
fn order(a: DefId, b: DefId) -> Ordering
    ensures { result ≡ definition_cmp a b }
{
    match (a, b) {
        (DefId::Literal(a), DefId::Literal(b)) => a.0.cmp(&b.0),
        (DefId::Literal(_), DefId::Named(_)) => Ordering::Less,
        (DefId::Named(_), DefId::Literal(_)) => Ordering::Greater,
        (DefId::Named(a), DefId::Named(b)) => a.0.cmp(&b.0),
    }
}

/// Puts the definition where it belongs, if it is not there.
pub(crate) fn insert(live: &mut Vec<DefId>, definition: DefId)
    requires { vec_len live.old < vec_capacity live.old }
    ensures live { IsStrictlySortedBy definition_cmp live.old.items
        → ListsDefinitions (λ d. Contains live.old.items d ⊎ (d ≡ definition)) live.new.items }
    ensures room { vec_capacity live.old - vec_len live.old ≤ vec_capacity live.new - vec_len live.new + 1 }
{
    match live.binary_search_by(|other| order(*other, definition)) {
        Ok(_) => {}
        Err(place) => match live.insert(place, definition) {
            Ok(()) => {}
            Err(_) => unreachable!(),
        },
    }
}

/// Takes the definition away.
pub(crate) fn remove(live: &mut Vec<DefId>, definition: DefId)
    ensures { IsStrictlySortedBy definition_cmp live.old.items
        → ListsDefinitions (λ d. Contains live.old.items d × (d ≡ definition → ⊥)) live.new.items }
{
    match live.binary_search_by(|other| order(*other, definition)) {
        Ok(place) => {
            live.remove(place);
        }
        Err(_) => {}
    }
}
