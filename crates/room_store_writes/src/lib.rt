//! Only the prover needs this to be a crate of its own.
//! What a room's changes write: each in one transaction, committed whole or undone.
#![tactic(auto)]

pub mod change_faults;
mod dropped_terminals;
pub mod enrolled_rows;
pub mod new_room;
pub mod terminal_changes;
pub mod terminal_holders;
pub mod terminal_laws;
pub mod terminal_list;
pub mod transactions;
