//! Marks, definitions and ranges as words behind a blank.

use edit_log::DefId;
use std::alloc::{AllocError, Global};

/// Adds the word and the number.
pub(crate) fn tell(
    alloc: Global,
    told: &mut String,
    word: &str,
    number: u64,
) -> Result<(), AllocError> {
    told.push_str(&format!(in alloc; "{word}{number}")?)
}

/// Adds the mark with the number: its definition, and behind a point its index. Numbers of named definitions
/// are odd, of literals even.
fn tell_mark(alloc: Global, told: &mut String, number: u64) -> Result<(), AllocError> {
    let definition = number / 256;
    if definition % 2 == 1 {
        tell(alloc, told, " named ", definition / 2)?;
    } else {
        tell(alloc, told, " literal ", definition / 2)?;
    }
    tell(alloc, told, ".", number % 256)
}

/// Adds the marks with the numbers.
pub(crate) fn tell_marks(
    alloc: Global,
    told: &mut String,
    numbers: &[u64],
) -> Result<(), AllocError> {
    for number in numbers {
        tell_mark(alloc, told, *number)?;
    }
    Ok(())
}

/// Adds the definition that is accepted, where there is one.
pub(crate) fn tell_accepted(
    alloc: Global,
    told: &mut String,
    definition: Option<DefId>,
) -> Result<(), AllocError> {
    match definition {
        Some(DefId::Literal(symbol)) => tell(alloc, told, " accepts literal ", u64::from(symbol.0)),
        Some(DefId::Named(number)) => tell(alloc, told, " accepts named ", u64::from(number.0)),
        None => Ok(()),
    }
}

/// Adds the range from the first byte to the second, which lead to the marks with the numbers.
pub(crate) fn tell_range(
    alloc: Global,
    told: &mut String,
    low: u8,
    high: u8,
    numbers: &[u64],
) -> Result<(), AllocError> {
    tell(alloc, told, " from ", u64::from(low))?;
    tell(alloc, told, " to ", u64::from(high))?;
    tell_marks(alloc, told, numbers)?;
    told.push_str(",")
}
