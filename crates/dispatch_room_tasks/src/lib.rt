//! Only the prover needs this to be a crate of its own.
//! What the commands do in the room of a database, over any storage: the room is opened, what is
//! done in it is kept, and what came of it is written as lines.
#![tactic(auto)]

pub mod changed_terminals;
mod cleared_tables;
pub mod creation;
pub mod deed_laws;
pub mod enrolment;
mod fleet_causes;
pub mod listed_terminals;
pub mod migration;
pub mod opened_room;
pub mod opening_faults;
pub mod random_tokens;
pub mod replaced_terminals;
mod replacement_causes;
pub mod replacement_faults;
pub mod replacement_laws;
pub mod replanned_room;
pub mod replanning_faults;
pub mod replanning_laws;
pub mod row_outcomes;
