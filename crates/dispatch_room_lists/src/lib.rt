//! Only the prover needs this to be a crate of its own.
//! What a list does to a room, over any storage: it is replayed segment by segment, and between two segments,
//! what the rows there say is done.
#![tactic(auto)]

pub mod change_texts;
pub mod digest_lines;
mod followed_rows;
mod listed_changes;
mod listed_rows;
mod noted_sources;
mod replay_ends;
pub mod replayed_lists;
pub mod replayed_segments;
pub mod room_changes;
pub mod segment_readers;
