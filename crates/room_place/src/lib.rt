//! Places, the division areas that they lie in, and one-kilometre cells of them.
#![tactic(auto)]

pub mod bounded_numbers;
mod distances;
pub mod grid_cells;
mod grid_references;
mod lowest_division;
pub mod places;
mod plan_faults;
pub mod plans;
