//! Only the prover needs this to be a crate of its own.
//! The room of a file, served over TCP to those who call: where it listens, who is heard there, and
//! the parts in which it is served.
#![tactic(auto)]

pub mod hosts;
mod listeners;
mod opened_names;
pub mod serve;
mod tcp_acceptors;
mod tcp_callers;
