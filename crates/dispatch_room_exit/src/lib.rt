//! How a command ends: how much it did, or why it fails; what it says of that on standard error,
//! and its exit status.
#![tactic(auto)]

pub mod exit_status;
pub mod failure_causes;
