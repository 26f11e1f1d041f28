//! The room in its tables: each event is decided on the rows that it reads, and written in one
//! transaction, after which the tables stand for the room after it. What is known beside them
//! follows.
//!
//! Why it is so. The room has one user, and nothing changes between what is read and what is
//! written. So a decision is made before the transaction, over the few rows that the event needs,
//! and the answer's bytes exist before anything is written: memory that is refused finds the
//! tables as they were. The decision is the one of `room_core`; nothing here knows a rule of the
//! room.
//!
//! What holds. The tables stand for one room, and it is well-formed: a file with another one is
//! not opened, and each event keeps it so. After `act` they stand for the room after the event,
//! and the bytes are those of the machine's answer; or memory or storage was refused, and they
//! stand for the room before. What is known beside the tables (`room_store_cache`) is a copy of
//! parts of that room.
//!
//! Traps. A failed call may have shut the connection for good, as a failed sync does. So after
//! each failed call a row is read, and a store that can't read it or sees no room is sound no
//! more: serving ends, and the file has to be opened again, which shows what the disk has. What is
//! known is then dropped but for the terminals, which no event changes. A statement's meaning is
//! proved only under the room's schema, so a file with a table or an index more is no room. And
//! `render` is asked for an answer that the room may yet refuse to keep: nobody may write its
//! bytes before `act` returns.
#![tactic(auto)]

mod acted_events;
mod digest_events;
mod event_decisions;
pub mod event_runs;
mod fleet_enrolment;
mod move_decisions;
pub mod opened_store;
mod served_store;
pub mod store;
pub mod store_creation;
pub mod store_digest;
mod store_faults;
pub mod store_migration;
