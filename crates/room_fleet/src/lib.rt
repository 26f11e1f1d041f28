//! What a crew's reports and its shifts do to the rows of its vehicle.
#![tactic(auto)]

pub mod buttons;
pub mod reports;
pub mod shifts;
