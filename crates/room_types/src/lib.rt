//! The rows of the dispatch room, what is asked and answered, and why a request is refused.
#![tactic(auto)]

pub mod answers;
pub mod asks;
pub mod callsign;
pub mod changes;
pub mod codes;
pub mod crews;
pub mod decisions;
pub mod fleet;
pub mod link_limits;
pub mod needs;
pub mod note;
pub mod numbers;
pub mod ranks;
pub mod refusal_statuses;
pub mod row_keys;
pub mod rows;
pub mod sent_vehicles;
pub mod slices;
pub mod tables;
pub mod text;
pub mod token;
