//! The live tokens and skips.

ghost use Rattle.std.specs.Prelude.{◌≡◌, ◌≤◌, ◌==◌, length, map, find, filter, not, option_map, slice_get, IfOk, Some};
ghost use Rattle.grammar_text.specs.declared.limits.TheConstants.{EDIT_LIMIT};
ghost use Rattle.std.specs.List.Sorted.{IsStrictlySortedBy};
ghost use Rattle.edit_log.specs.Replicas.{seen_of, HasPositions};
ghost use Rattle.edit_log.specs.Facts.{definition_order};
ghost use Rattle.regex_ast.specs.Expressions.{Expression};
ghost use Rattle.regex_ast.specs.Refusals.{SpellsWithinLimits};

use forest::{RuleId, SymbolId};
use grammar_text::Text;
use regex_ast::{BadRegex, Positions, read_regex};
use std::alloc::{AllocError, Global};

/// A live token or skip.
#[derive(Drop)]
pub(crate) struct NamedDefinition {
    /// Its number: the version that it came with.
    pub(crate) number: RuleId,
    /// The symbol of its name.
    pub(crate) name: SymbolId,
    /// Whether it is a skip, whose pieces are passed over.
    pub(crate) is_skip: bool,
    /// The text of its expression, byte for byte.
    pub(crate) expression: Text,
    /// The positions of that expression.
    pub(crate) positions: Positions,
}

/// The token or skip with this number, name and expression.
pub(crate) fn named(
    alloc: Global,
    number: RuleId,
    name: SymbolId,
    is_skip: bool,
    expression: Text,
) -> Result<NamedDefinition, AllocError>
    requires read { (e : Expression) × SpellsWithinLimits expression e }
    requires short { length expression ≤ EDIT_LIMIT }
    ensures seen { IfOk result (λ live. seen_of live ≡ record { number = number; name = name; is_skip = is_skip; expression = expression }) }
    ensures positions { IfOk result HasPositions }
{
    let regex = match read_regex(alloc, expression.bytes()) {
        Ok(regex) => regex,
        Err(_) => return Err(AllocError),
    };
    let positions = Positions::of(alloc, &regex)?;
    Ok(NamedDefinition {
        number,
        name,
        is_skip,
        expression,
        positions,
    })
}

/// The place of the definition with this number.
fn place_of(definitions: &[NamedDefinition], number: RuleId) -> Option<usize>
    requires { IsStrictlySortedBy definition_order (map seen_of definitions.now) }
    ensures { option_map (λ place. slice_get definitions.now place) result ≡ option_map Some (find (λ live. live.number.0 == number.0) definitions.now) }
{
    let found = definitions.binary_search_by(|live| live.number.0.cmp(&number.0));
    found.ok()
}

/// The definition with this number.
pub(crate) fn definition_of(
    definitions: &[NamedDefinition],
    number: RuleId,
) -> Option<&NamedDefinition>
    requires { IsStrictlySortedBy definition_order (map seen_of definitions.now) }
    ensures { option_map (λ live. live.now) result ≡ find (λ live. live.number.0 == number.0) definitions.now }
{
    match place_of(definitions, number) {
        Some(place) => Some(&definitions[place]),
        None => None,
    }
}

/// Takes the definition with this number away.
pub(crate) fn drop_definition(definitions: &mut Vec<NamedDefinition>, number: RuleId)
    requires { IsStrictlySortedBy definition_order (map seen_of definitions.old.items) }
    ensures { definitions.new.items ≡ filter (λ live. not (live.number.0 == number.0)) definitions.old.items }
{
    if let Some(place) = place_of(definitions, number) {
        definitions.remove(place);
    }
}
