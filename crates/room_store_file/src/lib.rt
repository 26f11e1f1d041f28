//! Only the prover needs this to be a crate of its own.
//! A room's file: opened as the room that its tables stand for, moved from version 1 to this one,
//! and examined without a change; and the digest of all its rows.
#![tactic(auto)]

pub mod digest_changes;
pub mod examined_file;
pub mod laws;
pub mod migrated_file;
pub mod opened_file;
pub mod room_digest;
pub mod room_in_tables;
mod row_hash;
