//! What needs an eye in a division, what a vehicle reported, and clearing a report.
#![tactic(auto)]

mod queue_entries;
pub mod queues;
pub mod report_clearing;
mod served_incidents;
pub mod vehicle_reports;
