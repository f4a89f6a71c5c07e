//! Pages over the shared table: what a user finds and publishes there.
//!
//! A [`page::Page`] is one version of a shared set of rows, each with a key and
//! a payload. Users of one table find and publish rows in any threads, without
//! locks, and every answer rests on steps that the call made itself.
#![tactic(auto)]

mod catching;
mod claiming;
mod comparing;
pub mod finding;
pub mod page;
pub mod pass;
pub mod paths;
pub mod pinned;
pub mod pinned_hand;
mod pinned_page;
mod pinning;
mod placing;
mod site;
mod writing;
