//! The top call: it runs a script from a source, and writes the reply to each command to a sink.
//!
//! The reply to an edit of the grammar is its version or why it is refused, and to a text its shared packed forest
//! or the reason why there is none. For a script with a bad line one line is written.
#![tactic(auto)]

mod answering;
mod laws;
mod server;
mod sink_writing;
mod source_reading;
mod top_call;
mod words;

pub use laws::{good_or_bad, graph_of_roomy_script, one_output, words_taken};
pub use top_call::{Ended, Status, run};
