//! The replies to the commands of a script, and their lines.
//!
//! A [`Reply`] is data. Which reply a command has is defined here, by the grammar that the commands before it made, and
//! the crates above answer by it. [`put_reply`] appends a reply's lines to a buffer.
#![tactic(auto)]

mod edit_lines;
mod held_lines;
mod laws;
mod reply;
mod reply_lines;
mod script_lines;
mod tally_lines;
mod text_lines;

pub use laws::one_reply;
pub use reply::{Outcome, Reply, TokenList};
pub use reply_lines::put_reply;
pub use script_lines::put_bad_script;
pub use tally_lines::put_laziness;
