//! Only the prover needs this to be a crate of its own.
//! Whether the rows of all tables make a well-formed room, and whether terminals fit it; and else
//! what is wrong first. How much a room has.
#![tactic(auto)]

pub mod disagreements;
pub(crate) mod division_checks;
pub mod first_disagreement;
pub mod history_checks;
pub(crate) mod incident_checks;
pub(crate) mod opening_calls;
pub mod room_checks;
pub mod summaries;
pub mod terminal_checks;
pub(crate) mod turn_checks;
pub(crate) mod vehicle_checks;
