//! The numbers of the live rules under each left side.

ghost use Rattle.std.specs.Prelude.{◌≡◌, ◌<◌, ◌≤◌, ◌==◌, ◌++◌, ◌∷◌, [], ℕ, length, map, filter, not, slice_get, Some, if◌then◌else◌, Contains, vec_len};
ghost use Rattle.std.specs.Prelude.{vec_capacity};
ghost use Rattle.std.specs.List.Sorted.{IsStrictlyIncreasing};
ghost use Rattle.edit_log.specs.Lists.{under};
ghost use Rattle.edit_log.specs.Rows.{lefts_in, uses_in, literals_in};

use crate::symbol_table::Row;
use forest::{RuleId, SymbolId};

/// The list under the left side, with the number behind it.
pub(crate) fn push_left(rows: &mut Vec<Row>, left: SymbolId, number: RuleId)
    requires within { left.0 < length rows.old.items }
    requires room { (list : _) → slice_get (lefts_in rows.old.items) left.0 ≡ Some list → vec_len list < vec_capacity list }
    ensures len { length rows.new.items ≡ length rows.old.items }
    ensures lists { (place : ℕ) → under (lefts_in rows.new.items) place ≡ (if place == left.0
        then under (lefts_in rows.old.items) place ++ number ∷ [] else under (lefts_in rows.old.items) place) }
    ensures uses { uses_in rows.new.items ≡ uses_in rows.old.items }
    ensures literals { literals_in rows.new.items ≡ literals_in rows.old.items }
{
    rows[left.0 as usize].rules.push_reserved(number);
}

/// The place of the number in an ascending list.
fn place_of(numbers: &[RuleId], number: RuleId) -> usize
    requires ascends { IsStrictlyIncreasing (map (λ n. n.0) numbers.now) }
    requires there { Contains numbers.now number }
    ensures { slice_get numbers.now result ≡ Some number }
{
    match numbers.binary_search(&number) {
        Ok(place) => place,
        Err(_) => unreachable!(),
    }
}

/// The list under the left side, without the number.
pub(crate) fn drop_left(rows: &mut Vec<Row>, left: SymbolId, number: RuleId)
    requires ascends { IsStrictlyIncreasing (map (λ n. n.0) (under (lefts_in rows.old.items) left.0)) }
    requires there { Contains (under (lefts_in rows.old.items) left.0) number }
    ensures len { length rows.new.items ≡ length rows.old.items }
    ensures lists { (place : ℕ) → under (lefts_in rows.new.items) place ≡ (if place == left.0
        then filter (λ n. not (n.0 == number.0)) (under (lefts_in rows.old.items) place) else under (lefts_in rows.old.items) place) }
    ensures uses { uses_in rows.new.items ≡ uses_in rows.old.items }
    ensures literals { literals_in rows.new.items ≡ literals_in rows.old.items }
{
    let row = &mut rows[left.0 as usize];
    let place = place_of(&row.rules, number);
    row.rules.remove(place);
}
