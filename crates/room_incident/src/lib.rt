//! What calls and desks do to the incidents of a division.
#![tactic(auto)]

pub mod active_incidents;
pub mod call_links;
pub mod calls;
pub mod class_times;
pub mod closed_incidents;
pub mod crew_jobs;
pub mod day_times;
pub mod incident_closing;
pub mod incident_history;
pub mod incident_list;
pub mod incident_merges;
pub mod incident_needs;
mod incident_tallies;
pub mod laws;
pub mod served_needs;
