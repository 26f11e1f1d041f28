//! Only the prover needs this to be a crate of its own.
//! The room that a file's tables hold, judged as it is read: whole, in a transaction, or with the
//! history of the room read one row at a time and let go.
#![tactic(auto)]

pub mod file_faults;
mod judged_histories;
pub mod soundness;
pub mod streamed_plan;
pub mod whole_file;
