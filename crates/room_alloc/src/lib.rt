//! Which vehicles are sent, when they are on duty, where they stand by, and to whom they are lent.
#![tactic(auto)]

pub mod cover;
pub mod desk_views;
pub mod held_shifts;
pub mod held_vehicles;
pub mod lending;
pub(crate) mod nearness;
pub(crate) mod nearness_rows;
pub mod orders;
pub mod posts;
pub mod proposals;
pub(crate) mod ring_search;
