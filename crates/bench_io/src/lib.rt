//! Sources of bytes that are read and sinks of bytes that are written, with a count of their faults.
#![tactic(auto)]

mod adapters;
mod fault;
mod mem_sink;
mod mem_source;
mod plain;
mod plan;
mod sink;
mod source;

pub use adapters::{StdSink, StdSource};
pub use fault::{Fault, NoMemory};
pub use mem_sink::MemSink;
pub use mem_source::MemSource;
pub use plain::{PlainSink, PlainSource};
pub use sink::Sink;
pub use source::Source;
