//! One decision of the room: what is asked on the rows of one division or one vehicle comes to
//! changes of rows and an answer, or to a refusal.
#![tactic(auto)]

pub mod call_decisions;
pub mod crew_decisions;
pub mod desk_decisions;
pub mod kept_answers;
pub mod move_decisions;
