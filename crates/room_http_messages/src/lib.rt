//! Requests of HTTP/1.0 and HTTP/1.1 read from a stream of bytes, and answers written to one.
//!
//! A stream is read piece by piece into an `Inbox`, and `read_message` finds the message at its
//! front, or says why there is none. What is found doesn't depend on how the stream was cut.
#![tactic(auto)]

pub mod connection;
pub mod head_fields;
pub mod head_rules;
pub mod inbox;
pub mod laws;
pub mod limits;
pub mod message_prefixes;
pub mod message_reader;
pub mod messages;
pub mod read_faults;
pub mod sinks;
pub mod sources;
pub mod standard_wires;
