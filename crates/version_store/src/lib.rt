//! Versions of the shared table: one editor makes them, while passes read and
//! extend the pages of the versions that they pin.
//!
//! A [`bench::Bench`] has the whole table. It is parted into an
//! [`editor::Editor`] and some passes, which may go to threads of their own.
//! An edit adds an entry to the log and makes the next version, whose page has
//! the rows of the page before that a chooser keeps. A bench that pins its
//! version is a [`lone::Lone`], whose page tells its graph.
#![tactic(auto)]

pub mod bench;
mod bench_rows;
mod carried_rows;
mod choosing;
mod current;
pub mod edit_error;
mod editing;
mod editing_alone;
pub mod editor;
mod entry_writing;
mod freeing;
pub mod gathering;
mod giving_up;
mod leaving;
mod live_version;
mod lives;
pub mod lone;
mod lone_page;
mod next_version;
mod page_reading;
mod page_writing;
mod parting;
mod pinning_alone;
mod row_placing;
mod row_reading;

/// There was no memory.
pub type NoMemory = std::alloc::AllocError;
