//! Whether a call agrees with its incident, and an incident with its division.
ghost use Rattle.std.specs.Prelude.{◌≡◌, option_copied};
ghost use Rattle.room_types.specs.Codes.{is_merged};
ghost use Rattle.room_store_check_rows.specs.FirstFaults.{call_fault};
ghost use Rattle.room_store_check_rows.specs.RowTests.{is_given};

use crate::disagreements::{CallFault, Disagreement, IncidentFault};
use crate::first_disagreement::{Judged, unless};
use crate::room_checks::RoomRows;
use room_place::plans::Plan;
use room_types::codes::State;
use room_types::tables::{Call, Division, Incident};

impl Judged for Call {
    ghost use Rattle.room_store_check_rows.specs.FirstFaults.{call_disagreement};

    ghost disagreement = { λ plan s c. call_disagreement s c };

    fn disagreement(&self, _: &Plan, rows: &RoomRows) -> Option<Disagreement> {
        let incident = rows.incidents.get(&(self.division, self.incident));
        match call_fault(self, incident) {
            Some(fault) => Some(Disagreement::Call(self.position, self.serial, fault)),
            None => None,
        }
    }
}

fn call_fault(call: &Call, incident: Option<&Incident>) -> Option<CallFault>
    ensures { result ≡ call_fault call.now (option_copied incident.entry) }
{
    match incident {
        Some(incident) => {
            let merged = is_merged(incident.state);
            let found = unless(!merged, CallFault::Merged);
            found.or(unless(incident.opened <= call.at, CallFault::Early))
        }
        None => Some(CallFault::NoIncident),
    }
}

pub(crate) fn is_merged(state: State) -> bool
    ensures { result ≡ is_merged state }
{
    matches!(state, State::Merged(_))
}

impl Judged for Incident {
    ghost use Rattle.room_store_check_rows.specs.FirstFaults.{incident_disagreement};

    ghost disagreement = { λ plan s i. incident_disagreement s i };

    fn disagreement(&self, _: &Plan, rows: &RoomRows) -> Option<Disagreement> {
        let given = is_given(self, rows.divisions.get(&self.division));
        unless(
            given,
            Disagreement::Incident(self.division, self.number, IncidentFault::Number),
        )
    }
}

fn is_given(incident: &Incident, division: Option<&Division>) -> bool
    ensures { result ≡ is_given incident.now (option_copied division.entry) }
{
    match division {
        Some(division) => incident.number.get() <= division.last_incident.get(),
        None => false,
    }
}
