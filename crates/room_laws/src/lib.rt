//! What the machine promises from one moment to the next, as laws over its rooms and runs. Each is
//! the contract of a function that does nothing; what it says stands in `specs`.
#![tactic(auto)]

pub mod exception_laws;
pub mod order_laws;
pub mod urgency_laws;
