//! How often each symbol stands on the right sides of the live rules.

ghost use Rattle.std.specs.Prelude.{◌≡◌, ◌<◌, ◌≤◌, ◌+◌, ◌-◌, ◌^◌, ℕ, List, ◌∷◌, [], ◌↔◌, length, slice_get, slice_set, Some, option_map, IsTrue, IfOk, vec_len};
ghost use Rattle.std.specs.Prelude.{vec_capacity};
ghost use Rattle.std.specs.List.{slice_index_or};
ghost use Rattle.forest.specs.declared.rules.RuleId.{RuleId as ARuleId};
ghost use Rattle.edit_log.specs.Lookups.{ListsDefinitions};
ghost use Rattle.edit_log.specs.Lists.{occurrences, IsLiveBy, AreWithin, Wakes, IsLastUse};
ghost use Rattle.edit_log.specs.Rows.{lefts_in, uses_in, literals_in, IsUsed};

use crate::definitions::DefId;
use crate::live;
use crate::symbol_table::Row;
use forest::SymbolId;
use std::alloc::{AllocError, Global};

/// Whether the symbol is a literal that stands so often on right sides.
fn is_used(rows: &[Row], symbol: SymbolId, count: usize) -> bool
    ensures { IsTrue result ↔ IsUsed rows.now symbol count }
{
    let place = symbol.0 as usize;
    if place >= rows.len() {
        return false;
    }
    let row = &rows[place];
    if row.uses as usize != count {
        return false;
    }
    row.positions.is_some()
}

/// Counts one more use of the symbol.
fn count_more(rows: &mut Vec<Row>, symbol: SymbolId)
    requires within { symbol.0 < length rows.old.items }
    requires few { slice_index_or (uses_in rows.old.items) symbol.0 0 + 1 < 2 ^ 32 }
    ensures uses { uses_in rows.new.items ≡ slice_set (uses_in rows.old.items) symbol.0 (slice_index_or (uses_in rows.old.items) symbol.0 0 + 1) }
    ensures lefts { lefts_in rows.new.items ≡ lefts_in rows.old.items }
    ensures literals { literals_in rows.new.items ≡ literals_in rows.old.items }
{
    rows[symbol.0 as usize].uses += 1;
}

/// Counts one use of the symbol less.
fn count_less(rows: &mut Vec<Row>, symbol: SymbolId)
    requires within { symbol.0 < length rows.old.items }
    requires some { 0 < slice_index_or (uses_in rows.old.items) symbol.0 0 }
    ensures uses { uses_in rows.new.items ≡ slice_set (uses_in rows.old.items) symbol.0 (slice_index_or (uses_in rows.old.items) symbol.0 0 - 1) }
    ensures lefts { lefts_in rows.new.items ≡ lefts_in rows.old.items }
    ensures literals { literals_in rows.new.items ≡ literals_in rows.old.items }
{
    rows[symbol.0 as usize].uses -= 1;
}

/// Counts one more use of the symbol. The first use of a literal makes it live.
fn add_use(rows: &mut Vec<Row>, live: &mut Vec<DefId>, symbol: SymbolId)
    requires within { symbol.0 < length rows.old.items }
    requires few { slice_index_or (uses_in rows.old.items) symbol.0 0 + 1 < 2 ^ 32 }
    requires room { vec_len live.old < vec_capacity live.old }
    ensures lefts { lefts_in rows.new.items ≡ lefts_in rows.old.items }
    ensures literals { literals_in rows.new.items ≡ literals_in rows.old.items }
    ensures counts { (place : ℕ) → slice_get (uses_in rows.new.items) place
        ≡ option_map (λ n. n + occurrences (record { 0 = place }) (symbol ∷ [])) (slice_get (uses_in rows.old.items) place) }
    ensures live { (numbers : List ARuleId) → ListsDefinitions (IsLiveBy (literals_in rows.old.items) (uses_in rows.old.items) numbers) live.old.items
        → ListsDefinitions (IsLiveBy (literals_in rows.old.items) (uses_in rows.new.items) numbers) live.new.items }
    ensures room { vec_capacity live.old - vec_len live.old ≤ vec_capacity live.new - vec_len live.new + 1 }
{
    count_more(rows, symbol);
    if is_used(rows, symbol, 1) {
        live::insert(live, DefId::Literal(symbol));
    }
}

/// Counts the symbols of a right side that is added.
pub(crate) fn add_uses(rows: &mut Vec<Row>, live: &mut Vec<DefId>, right: &[SymbolId])
    requires within { AreWithin right.now (length rows.old.items) }
    requires few { (place : ℕ) → slice_index_or (uses_in rows.old.items) place 0 + length right.now < 2 ^ 32 }
    requires room { length right.now ≤ vec_capacity live.old - vec_len live.old }
    ensures lefts { lefts_in rows.new.items ≡ lefts_in rows.old.items }
    ensures literals { literals_in rows.new.items ≡ literals_in rows.old.items }
    ensures counts { (place : ℕ) → slice_get (uses_in rows.new.items) place
        ≡ option_map (λ n. n + occurrences (record { 0 = place }) right.now) (slice_get (uses_in rows.old.items) place) }
    ensures live { (numbers : List ARuleId) → ListsDefinitions (IsLiveBy (literals_in rows.old.items) (uses_in rows.old.items) numbers) live.old.items
        → ListsDefinitions (IsLiveBy (literals_in rows.old.items) (uses_in rows.new.items) numbers) live.new.items }
{
    for part in right {
        add_use(rows, live, *part);
    }
}

/// Counts one use of the symbol less. A literal without a use is no longer live.
fn drop_use(rows: &mut Vec<Row>, live: &mut Vec<DefId>, symbol: SymbolId)
    requires within { symbol.0 < length rows.old.items }
    requires some { 0 < slice_index_or (uses_in rows.old.items) symbol.0 0 }
    ensures lefts { lefts_in rows.new.items ≡ lefts_in rows.old.items }
    ensures literals { literals_in rows.new.items ≡ literals_in rows.old.items }
    ensures counts { (place : ℕ) → slice_get (uses_in rows.new.items) place
        ≡ option_map (λ n. n - occurrences (record { 0 = place }) (symbol ∷ [])) (slice_get (uses_in rows.old.items) place) }
    ensures live { (numbers : List ARuleId) → ListsDefinitions (IsLiveBy (literals_in rows.old.items) (uses_in rows.old.items) numbers) live.old.items
        → ListsDefinitions (IsLiveBy (literals_in rows.old.items) (uses_in rows.new.items) numbers) live.new.items }
{
    count_less(rows, symbol);
    if is_used(rows, symbol, 0) {
        live::remove(live, DefId::Literal(symbol));
    }
}

/// Counts the symbols of a right side that is dropped.
pub(crate) fn drop_uses(rows: &mut Vec<Row>, live: &mut Vec<DefId>, right: &[SymbolId])
    requires within { AreWithin right.now (length rows.old.items) }
    requires some { (place count : ℕ) → slice_get (uses_in rows.old.items) place ≡ Some count → occurrences (record { 0 = place }) right.now ≤ count }
    ensures lefts { lefts_in rows.new.items ≡ lefts_in rows.old.items }
    ensures literals { literals_in rows.new.items ≡ literals_in rows.old.items }
    ensures counts { (place : ℕ) → slice_get (uses_in rows.new.items) place
        ≡ option_map (λ n. n - occurrences (record { 0 = place }) right.now) (slice_get (uses_in rows.old.items) place) }
    ensures live { (numbers : List ARuleId) → ListsDefinitions (IsLiveBy (literals_in rows.old.items) (uses_in rows.old.items) numbers) live.old.items
        → ListsDefinitions (IsLiveBy (literals_in rows.old.items) (uses_in rows.new.items) numbers) live.new.items }
{
    for part in right {
        drop_use(rows, live, *part);
    }
}

/// Whether a rule with this right side, once it is added, makes a literal live that has a number already.
pub(crate) fn wakes(rows: &[Row], right: &[SymbolId]) -> bool
    ensures { IsTrue result ↔ Wakes (literals_in rows.now) (uses_in rows.now) right.now }
{
    for part in right {
        if is_used(rows, *part, 0) {
            return true;
        }
    }
    false
}

/// How often the symbol stands among these.
fn occurrences(symbol: SymbolId, parts: &[SymbolId]) -> usize
    ensures value { result ≡ occurrences symbol parts.now }
    ensures within { result ≤ length parts.now }
{
    let mut count = 0;
    for part in parts {
        if *part == symbol {
            count += 1;
        }
    }
    count
}

/// The literals that are no longer live once a rule with this right side is dropped.
pub(crate) fn ended(
    alloc: Global,
    rows: &[Row],
    right: &[SymbolId],
) -> Result<Vec<DefId>, AllocError>
    ensures { IfOk result (λ gone. ListsDefinitions (IsLastUse (literals_in rows.now) (uses_in rows.now) right.now) gone.items) }
{
    let mut gone = Vec::with_capacity(alloc, right.len())?;
    for part in right {
        if is_used(rows, *part, occurrences(*part, right)) {
            live::insert(&mut gone, DefId::Literal(*part));
        }
    }
    Ok(gone)
}
