//! Scripts: the commands that a text asks for, line by line, or its first bad line.
#![tactic(auto)]

mod bad_script;
mod command;
mod form;
mod laws;
mod limits;
mod lines;
mod progress;
mod reading;
mod script;
mod texts;

pub use bad_script::{BadKind, BadScript, ScriptError};
pub use command::{Block, Blocks, Command, Commands, Script};
pub use laws::{edit_words, has_first_bad, one_script};
pub use limits::{COMMAND_LIMIT, SCRIPT_LIMIT, TEXT_LIMIT, limits_of_scripts};
pub use script::read_script;
