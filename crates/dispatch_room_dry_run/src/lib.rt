//! The example room of the documents, in memory, and a connection that it serves; the dry run is
//! one.
#![tactic(auto)]

pub mod dry_run;
#[cfg(test)]
mod event_tests;
pub mod example;
pub mod example_session;
pub mod laws;
mod memory_room;
pub mod standard_streams;
