//! Only the prover needs this to be a crate of its own.
//! The commands of dispatch_room over a room's file: they open it, hand it to what works over any
//! storage, and close it.
#![tactic(auto)]

mod board;
mod check;
pub mod commands;
mod digest;
mod joined_times;
mod migrate;
mod renew;
mod replay;
mod restore;
mod task_causes;
mod times;
mod token_files;
mod verify;
