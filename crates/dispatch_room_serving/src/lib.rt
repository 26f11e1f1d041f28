//! Only the prover needs this to be a crate of its own.
//! The connections of a room, one after another, over any storage.
//!
//! Why it is so. A room that is served is a run: all that its connections ask, in one order. What
//! is promised of a run holds over all connections only if each begins where the one before ended,
//! so they are served one after another by the same `serve`, and the clause of `serve_next` goes
//! from any number of calls to one more. A start is such a run from the room that the file holds,
//! and starts are joined by their tables, not by what a program remembers.
//!
//! What holds. After any number of calls, wherever the service is stopped, the run so far keeps
//! the promises, and the file holds the room after all answers that were written, or after the one
//! event in hand. A journal has a message before the room acts on it, and its status before the
//! answer is written. A service ends only as memory is refused, as the journal can't be written,
//! or as the store is sound no more; how a connection ends else is its caller's affair.
//!
//! Traps. A journal that can't be written ends the room, and a log that can't be written is given
//! up: they are two observers, and must not be taken for each other. A new part of a journal
//! begins only between two calls, and the room is closed and opened for it on the same connection,
//! so what is proved of starts is proved of it. What is left behind the last whole record of a
//! list is copied beside it before it is cut off. And `Memory` ends a service although its room is
//! whole: the unit starts it again.
#![tactic(auto)]

pub mod callers;
pub mod change_marks;
pub mod connections;
pub mod journal_files;
pub mod journal_observers;
pub mod journals;
pub mod laws;
pub mod list_places;
pub mod log_lines;
pub mod log_observers;
pub mod logs;
pub mod opened_lists;
pub mod served_room;
