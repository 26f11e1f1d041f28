//! What a request names and asks for: its path, its parameters and its body, and who may ask it.
#![tactic(auto)]

mod bodies;
pub mod body_faults;
mod body_fields;
pub mod laws;
mod parameters;
pub mod request_table;
pub mod router;
