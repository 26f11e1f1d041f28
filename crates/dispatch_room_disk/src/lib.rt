//! Only the prover needs this to be a crate of its own.
//! The file of a room: it is found, or made, and what is done in it is done over any storage.
#![tactic(auto)]

pub mod aside_names;
mod file_causes;
mod holders;
pub mod laws;
mod new_files;
mod new_logs;
mod opened_files;
mod openings;
pub mod outputs;
pub mod restored_files;
pub mod room_files;
pub mod systems;
