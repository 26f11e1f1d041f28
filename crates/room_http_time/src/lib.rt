//! The days of the calendar in a time zone.
#![tactic(auto)]

pub mod days;
pub mod laws;
pub mod zones;
