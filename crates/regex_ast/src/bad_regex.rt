//! Why a text is not read as an expression.

use std::fmt;
use thiserror::Error;

/// Why a text is not read as an expression. Offsets count bytes from 0.
///
/// The refusals are tried in this order.
#[derive(Clone, Copy, Error, PartialEq, Eq)]
pub enum BadRegex {
    /// The text is no expression. The offset is that of the first byte with which no expression
    /// can go on, or the length of a text that is a prefix of one.
    #[error("byte {offset}: no expression goes on like this")]
    Shape {
        /// Where that byte stands, or the length of the text.
        offset: u32,
    },
    /// A class has no byte. The offset is that of the bracket that opens the first such class.
    #[error("byte {offset}: this class has no byte")]
    EmptyClass {
        /// Where that bracket stands.
        offset: u32,
    },
    /// More than 64 parentheses stand open. The offset is that of the first one inside 64 others.
    #[error("byte {offset}: more than 64 parentheses stand open")]
    TooDeep {
        /// Where that parenthesis stands.
        offset: u32,
    },
    /// There are more than 200 classes, each atom and each dot being one. The offset is that of
    /// the first byte of the 201st.
    #[error("byte {offset}: more than 200 classes")]
    TooManyPositions {
        /// Where that class begins.
        offset: u32,
    },
    /// Memory ran out.
    #[error("memory ran out")]
    NoMemory,
}

impl fmt::Debug for BadRegex {
    /// Writes the message, as `Display` does.
    fn fmt<W: fmt::Write>(&self, f: &mut fmt::Formatter<W>) -> fmt::Result {
        fmt::Display::fmt(self, f)
    }
}
