//! The sockets of a room's connections: each read and each write ends by a moment that is known
//! before it, so that no peer holds the room, and an answer that closes a connection arrives.
//!
//! Why it is so. The room serves one request at a time, so whoever is served while silent would
//! hold all others. Here nobody is served before a whole request of theirs has come. A look is a
//! read, and the bytes that it takes stay with the connection until they are served. Who isn't
//! whole waits in the system's set (`epoll`), so an idle room sleeps. A connection is then served
//! in pieces of whole requests, each by the same `serve`, and a law joins the pieces to one
//! stream.
//!
//! What holds. Each caller that came in is to be served, waits, parts or has gone; it has gone
//! only where a read gave the end or failed. Who is found whole is served in the order of being
//! found, after at most 1,023 others. Of a request no byte is given before it is whole, its time
//! is over, or it can't become whole any more. Each wait ends by a moment that was reckoned before
//! it.
//!
//! Traps. A close with unread bytes makes the system reset the connection, and the answer is lost:
//! so who is parted from is read from for a while, and what comes is thrown away. Who asks without
//! a pause is looked at beside the new ones, or these would starve. Where the clock can't be read
//! nobody may be waited for, and a caller is dropped. Descriptors are left for the room's own
//! files: where all were callers', the database could not open its log.
#![tactic(auto)]

pub mod acceptors;
pub mod client;
mod closing_connections;
pub mod connection_halves;
pub mod entrances;
pub mod kept_callers;
pub mod laws;
mod lines;
pub mod lingering_close;
pub mod lookaheads;
pub mod monotonic_clocks;
pub mod nonblocking_streams;
pub mod pieces;
mod read_deadlines;
pub mod readiness;
mod retries;
mod shared_streams;
pub mod socket_readers;
pub mod socket_writers;
pub mod timeouts;
pub mod unserved_bytes;
pub mod waiting_callers;
