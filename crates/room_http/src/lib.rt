//! The engine of the room: it serves a connection, from the bytes read to the bytes written. An
//! answer is a message of HTTP/1.1 whose content is JSON.
#![tactic(auto)]

mod answer_json;
pub mod arrival_answers;
pub mod arrivals;
pub mod clocks;
pub mod digest_replies;
pub mod fixed_answers;
pub mod handlers;
mod json_values;
pub mod laws;
pub mod message_events;
pub mod moments;
mod objects;
pub mod observers;
pub mod replies;
pub mod reply_laws;
pub mod reply_messages;
pub mod session;
pub mod settings;
