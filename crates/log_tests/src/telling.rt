//! Numbers and definitions as words behind a blank.

use edit_log::DefId;
use forest::{RuleId, SymbolId};
use std::alloc::{AllocError, Global};

/// Adds the word and the number.
pub(crate) fn tell(
    alloc: Global,
    told: &mut String,
    word: &str,
    number: u32,
) -> Result<(), AllocError> {
    told.push_str(&format!(in alloc; "{word}{number}")?)
}

/// Adds the number, where there is one.
pub(crate) fn tell_known(
    alloc: Global,
    told: &mut String,
    number: Option<SymbolId>,
) -> Result<(), AllocError> {
    match number {
        Some(number) => tell(alloc, told, " ", number.0),
        None => told.push_str(" unknown"),
    }
}

/// Adds the definition.
pub(crate) fn tell_definition(
    alloc: Global,
    told: &mut String,
    definition: DefId,
) -> Result<(), AllocError> {
    match definition {
        DefId::Literal(symbol) => tell(alloc, told, " literal ", symbol.0),
        DefId::Named(number) => tell(alloc, told, " named ", number.0),
    }
}

/// Adds each of the definitions.
pub(crate) fn tell_definitions(
    alloc: Global,
    told: &mut String,
    definitions: &[DefId],
) -> Result<(), AllocError> {
    for definition in definitions {
        tell_definition(alloc, told, *definition)?;
    }
    Ok(())
}

/// The number of a question.
pub(crate) fn number_in(text: &str) -> u32 {
    match text.parse::<u32>() {
        Ok(number) => number,
        Err(_) => u32::MAX,
    }
}

/// The definition of a question: `literal` or `named` with its number.
pub(crate) fn definition_in(text: &str) -> DefId {
    match text.strip_prefix("literal ") {
        Some(number) => DefId::Literal(SymbolId(number_in(number))),
        None => DefId::Named(RuleId(number_in(text.trim_start_matches("named ")))),
    }
}
