//! Why a row of a list of terminals is refused, in words.

use crate::replacement_faults::{ReplaceFault, RowFault};
use dispatch_room_exit::failure_causes::Explainer;
use room_types::asks::Who;
use room_types::fleet::Terminal;

/// Explains whose row is refused, and why.
pub(crate) fn explain(explainer: Explainer<'_>, listed: &[Terminal], fault: ReplaceFault) {
    let ReplaceFault::Row(at, why) = fault else {
        return;
    };
    let Some(row) = listed.get(at) else {
        return;
    };
    let cause = cause_of(why);
    match row.who {
        Who::Desk(division) => {
            explainer.explain(format_args!("desk {}: {cause}", division.get()));
        }
        Who::Position(position) => {
            explainer.explain(format_args!("position {}: {cause}", position.get()));
        }
        Who::Crew(callsign) => {
            explainer.explain(format_args!("crew {}: {cause}", callsign.as_str()));
        }
    }
}

fn cause_of(fault: RowFault) -> &'static str {
    match fault {
        RowFault::NoDivision => "its division is not in the plan",
        RowFault::NoVehicle => "no vehicle has the callsign",
        RowFault::TokenTaken => "its token is another terminal's",
        RowFault::SecondToken => "a row before gives it another token",
    }
}
