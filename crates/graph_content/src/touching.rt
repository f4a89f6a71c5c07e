//! What an edit touches of a row, told by the row's words.

ghost use Rattle.std.specs.Prelude.{◌≡◌, ◌↔◌, ℕ, List, Contains, IsTrue, MatchBool, map};
ghost use Rattle.edit_log.specs.History.{Grammar};
ghost use Rattle.item_sets.specs.declared.item.Item.{Item};
ghost use Rattle.item_sets.specs.declared.expansion.Expansion.{Expansion};
ghost use Rattle.isg_states.specs.declared.scan_key.ScanKey.{ScanKey};
ghost use Rattle.isg_states.specs.Marks.{definition_number};
ghost use Rattle.row_coding.specs.Words.{item_payload_words};
ghost use Rattle.row_coding.specs.Conditions.{FitItems, FitsScanKey};
ghost use Rattle.row_coding.specs.Rows.{Key, kernel, scan, FitsKey, row_words};
ghost use Rattle.graph_content.specs.Changes.{IsTouched, NamesEnded};
ghost use Rattle.graph_content.specs.Rows.{Fits, IsRowOf};
ghost use Rattle.graph_content.specs.Parts.{IsRow, names_rule, is_among, names_among};

use crate::row_parts::{names_in, payload_in};
use edit_log::{DefId, Touch};
use forest::{RuleId, SymbolId};
use row_coding::{Kind, kind_of};

/// Whether one of the words is an item of the rule.
fn names_rule(words: &[u64], rule: RuleId) -> bool
    ensures { result ≡ names_rule rule.0 words.now }
{
    words.iter().any(|word| *word / 32 == u64::from(rule.0))
}

/// A definition's part in the numbers of its marks.
fn definition_number(definition: DefId) -> u64
    ensures { result ≡ definition_number definition }
{
    match definition {
        DefId::Literal(symbol) => 2 * u64::from(symbol.0),
        DefId::Named(number) => 2 * u64::from(number.0) + 1,
    }
}

fn is_among(definitions: &[DefId], number: u64) -> bool
    ensures { result ≡ is_among definitions.now number }
{
    definitions
        .iter()
        .any(|definition| definition_number(*definition) == number)
}

/// Whether one of the words is a mark of one of the definitions.
fn names_among(words: &[u64], definitions: &[DefId]) -> bool
    ensures { result ≡ names_among definitions.now words.now }
{
    words.iter().any(|word| is_among(definitions, *word / 256))
}

/// Whether an expansion has a move on the symbol. The words are its payload. Moves ascend by symbol, so the
/// first that is not below the symbol decides.
fn moves_on(payload: &[u64], symbol: SymbolId) -> bool
    requires { (expansion : Expansion) × (payload.now ≡ item_payload_words expansion) }
    ensures { (expansion : Expansion) → payload.now ≡ item_payload_words expansion
        → IsTrue result ↔ ((upper : List Item) × Contains expansion.moves (symbol, upper)) }
{
    let wanted = u64::from(symbol.0);
    let mut rest = &payload[2..];
    for _ in 0..payload[0] {
        let found = rest[0];
        if found >= wanted {
            return found == wanted;
        }
        let next = 2 + rest[1] as usize;
        rest = &rest[next..];
    }
    false
}

/// Whether the kernel whose row this is has an item of the rule that ends.
fn names_ended(touch: &Touch, row: &[u64]) -> bool
    requires { IsRow row.now }
    ensures { (items : List Item) (payload : List ℕ) → FitItems items → row.now ≡ row_words (kernel items) payload
        → MatchBool result (NamesEnded touch.now items) (NamesEnded touch.now items → ⊥) }
{
    match touch.gone_rule {
        Some(rule) => names_rule(names_in(row), rule),
        None => false,
    }
}

/// Whether the edit touches the kernel whose row this is.
fn touches_items(touch: &Touch, row: &[u64]) -> bool
    requires { (grammar : Grammar) × (items : List Item) × IsRowOf grammar (kernel items) row.now }
    ensures { (grammar : Grammar) (items : List Item) → FitItems items → IsRowOf grammar (kernel items) row.now
        → MatchBool result (IsTouched grammar touch.now (kernel items)) (IsTouched grammar touch.now (kernel items) → ⊥) }
{
    if names_ended(touch, row) {
        return true;
    }
    match touch.left {
        Some(left) => moves_on(payload_in(row), left),
        None => false,
    }
}

/// Whether the edit touches the scanner's state whose row this is.
fn touches_scan(touch: &Touch, row: &[u64]) -> bool
    requires { (grammar : Grammar) × (key : ScanKey) × IsRowOf grammar (scan key) row.now }
    ensures { (grammar : Grammar) (key : ScanKey) → FitsScanKey key → IsRowOf grammar (scan key) row.now
        → MatchBool result (IsTouched grammar touch.now (scan key)) (IsTouched grammar touch.now (scan key) → ⊥) }
{
    if row[2] == 2 {
        return touch.scan;
    }
    names_among(names_in(row), touch.gone_defs.as_slice())
}

/// Whether the edit touches the key whose row this is.
pub(crate) fn is_touched(touch: &Touch, row: &[u64]) -> bool
    requires { (grammar : Grammar) × Fits grammar row.now }
    ensures { (grammar : Grammar) (key : Key) → FitsKey key → IsRowOf grammar key row.now
        → MatchBool result (IsTouched grammar touch.now key) (IsTouched grammar touch.now key → ⊥) }
{
    match kind_of(row) {
        Kind::Items => touches_items(touch, row),
        Kind::Scan => touches_scan(touch, row),
    }
}
