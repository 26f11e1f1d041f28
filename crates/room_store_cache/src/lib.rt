//! Only the prover needs this to be a crate of its own.
//! What is known of a room beside its tables: a copy, to which each commit is applied. What a
//! request reads of it and of the tables is in `room_store_reads`.
//!
//! Why it is so. Desks look often, and most looks would take several statements. So the parts that
//! requests read most are kept: the fleet, incidents of the last half hour, what waits in a queue
//! with the turns of the incidents that desks named last, the list that a desk saw last, and
//! terminals. No part grows with the room's history.
//!
//! What holds. Each part is unknown, or equal to what the tables say of it. A part is filled when
//! it is asked for, and each commit's changes are applied to all that are known. So a request
//! finds the same rows with a part and without it, and the machine's answer doesn't depend on what
//! is known.
//!
//! Traps. A change is applied only once it was committed: a copy that is ahead of the tables would
//! answer for a room that a stop takes back. Where memory is refused for a part, the part is
//! unknown from then on, and that is no failure. After a failure of the store all is unknown but
//! terminals. A new kind of change has to reach each part: the contract of each part asks for it,
//! so a change that is left out is refused here, and not seen in a desk's list.
#![tactic(auto)]

pub mod cache;
pub mod cached_rows;
pub mod entries;
pub mod fleets;
pub mod half_hours;
pub mod history_rows;
pub mod incident_views;
pub mod known_terminals;
pub mod open_turns;
pub mod queue_views;
pub mod recent_incidents;
pub mod shown_lists;
pub mod views;
