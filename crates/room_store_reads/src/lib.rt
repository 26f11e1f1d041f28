//! Only the prover needs this to be a crate of its own.
//! The rows that a request reads: those that are known, which `room_store_cache` keeps, and others
//! by key and by index of the tables.
#![tactic(auto)]

pub mod crew_reads;
mod filled_views;
mod incident_reads;
mod known_parts;
pub mod move_rows;
mod partitions;
pub mod request_reads;
mod row_unions;
mod selections;
pub mod working_rows;
