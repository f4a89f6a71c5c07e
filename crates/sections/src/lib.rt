//! Commands over one table: edits go into its log, and texts are scanned and parsed over the page of its version.
//!
//! A [`Crew`] keeps what serves command after command: the editor's grammar and the parser's memory. [`run_alone`]
//! answers one command while nobody else uses the table, and hands the table back, so that what one parse made, the
//! next one finds. Replies are those of the crate `replies`.
#![tactic(auto)]

mod alone;
mod crew;
mod editing;
mod holding;
mod laws;
mod texts;

pub use alone::{Alone, AloneError, run_alone};
pub use crew::Crew;
pub use laws::{keys_follow, roomy_is_exact};
