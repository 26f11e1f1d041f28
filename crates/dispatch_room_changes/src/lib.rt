//! Only the prover needs this to be a crate of its own.
//! A room that is made or changed as a plan, a fleet or a file of terminals says, and the list in
//! which that is kept before.
#![tactic(auto)]

mod change_lists;
pub mod files;
pub mod import;
pub mod init;
pub mod kept_changes;
mod kept_enrolments;
pub mod kept_import;
mod made_changes;
pub mod replan;
mod terminal_files;
pub mod terminals;
