//! What commands report of a room's file, or take from it, without changing it: how much it has,
//! the times of a day, and what it leaves to a new room. A room that is renewed goes on in a new
//! file, which has all that is going on and what happened since a moment, and the old one is kept
//! as an archive.
//!
//! Which rows the new room has stands in `specs`. The laws stand in `laws`: each is the contract of
//! a function that does nothing, so the contract is the law.
#![tactic(auto)]

pub mod called_incidents;
pub mod division_days;
pub mod examination;
mod finding_texts;
pub mod joined_reports;
pub mod laws;
pub mod past_rows;
mod put_changes;
pub mod renewal;
pub mod successor;
pub mod times_report;
