//! Regular expressions over bytes: reading their texts, and the positions of their classes.
#![tactic(auto)]

mod bad_regex;
mod breaches;
mod byte_set;
mod laws;
mod lexer;
mod limits;
mod links;
mod positions;
mod reader;
mod regex;
mod stack;

pub use bad_regex::BadRegex;
pub use byte_set::ByteSet;
pub use laws::{expression_or_cause, one_expression, words_and_marked_words, words_of_literals};
pub use limits::{DEPTH_LIMIT, POSITION_LIMIT, REGEX_LIMIT, limits_of_regex};
pub use positions::Positions;
pub use reader::read_regex;
pub use regex::{NoMemory, Regex};
