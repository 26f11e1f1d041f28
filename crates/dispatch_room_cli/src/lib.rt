//! The command line of dispatch_room: what its words ask for, and the help that it gives.
#![tactic(auto)]

pub mod addresses;
pub mod argument_parser;
mod builder;
mod command_options;
pub mod database_names;
pub mod tasks;
pub mod who;
