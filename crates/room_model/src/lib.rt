//! The dispatch machine, as definitions and laws, and the room that the engine serves.
//!
//! What a room is and does stands in `specs`; `specs/Lib.antt` lists it in the order to read it.
//! The laws stand here. Each is the contract of a function that does nothing: the contract is the
//! law. Beside them stands what the engine serves and the store implements: a room on which events
//! act, and which gives the digest of its rows.
//!
//! - `isolation_laws`, the main laws: a desk sees its division's rows and what that is handed, and
//!   nothing else.
//! - `agreement_laws`: what always holds of a room.
//! - `first_version_laws`: how a room goes on that was kept before loans were offered.
//! - `move_laws`: what a desk asks for at once, all or none.
//! - `closed_laws`: what a search finds, page by page, and the times of a day by class.
//! - `refusal_laws`: which refusals there are.
//! - `repeat_laws`: what changes nothing, a refusal and a message that is sent again.
//! - `choice_laws`: why a list that is proposed or queued is the only one.
//! - `crew_laws` and `slice_laws`: what a crew sees, and the few rows that a request reads.
//! - `examples`: the machine in examples that the check computes.
//! - `rooms` and `digests`: the room that is served.
#![tactic(auto)]

pub mod agreement_laws;
pub mod choice_laws;
pub mod closed_laws;
pub mod crew_laws;
pub mod digests;
pub mod examples;
pub mod first_version_laws;
pub mod isolation_laws;
pub mod move_laws;
pub mod refusal_laws;
pub mod repeat_laws;
pub mod rooms;
pub mod slice_laws;
