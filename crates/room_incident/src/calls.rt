//! What becomes of a call.
ghost use Rattle.std.specs.Prelude.{◌≡◌, List, Ok, Option, Some, IfOk, true};
ghost use Rattle.room_place.specs.declared.plans.Area.{Area};
ghost use Rattle.room_types.specs.Codes.{is_active};
ghost use Rattle.room_types.specs.declared.tables.Division.{Division};
ghost use Rattle.room_model.specs.Calls.{call_in, call_new, call_row, call_taken, new_incident};
ghost use Rattle.room_model.specs.Calls.{with_call};
ghost use Rattle.room_model.specs.Queries.{last_number};
ghost use Rattle.room_model.specs.RoomSlices.{room_of};
ghost use Rattle.room_incident.specs.IncidentCalls.{is_call_of};
ghost use Rattle.room_incident.specs.LinkedCalls.{Covers};

use crate::call_links::link_target;
use room_place::plans::DivisionNumber;
use room_types::answers::Answer;
use room_types::asks::NewCall;
use room_types::changes::Change;
use room_types::codes::State;
use room_types::decisions::Decision;
use room_types::numbers::{LastNumber, Number};
use room_types::refusal_statuses::Refusal;
use room_types::slices::Slice;
use room_types::tables::{Call, Division, Incident};

/// Takes a call whose place is in the slice's division and whose serial the room does not have
/// (the caller sees to both). It is linked to an active incident near by, or makes a new one with
/// the division's next number.
///
/// Refused as `NumbersUsedUp` where it makes a new one and the last number is given out.
#[tactic(auto, unfolding(room_model::specs::Calls::call_in))]
pub fn take_call(slice: &Slice, new: &NewCall) -> Result<Decision, Refusal>
    ensures decides { (plan : List Area)
        → result ≡ call_in slice.now.division new.now (room_of plan slice.now.rows) }
    ensures covers { IfOk result (Covers new.now) }
{
    match link_target(slice, &new.place, new.at) {
        Some(incident) => Ok(link(slice.division, incident, new)),
        None => open_incident(slice, new),
    }
}

fn link(division: DivisionNumber, incident: &Incident, new: &NewCall) -> Decision
    requires active { is_active incident.now.state ≡ true }
    requires division { incident.now.division ≡ division }
    ensures decides { (last : Option Division)
        → call_taken division new.now (Some incident.now) last ≡ Ok result }
    ensures covers { Covers new.now result }
{
    let incident_row = Change::PutIncident(with_call(new, incident));
    let call = Change::PutCall(call_row(division, incident.number, true, new));
    let answer = Answer::Called(division, incident.number, true);
    Decision::with_changes(answer, [incident_row, call])
}

#[tactic(auto, unfolding(room_model::specs::Decisions::refuse_if, room_model::specs::Queries::last_number))]
fn open_incident(slice: &Slice, new: &NewCall) -> Result<Decision, Refusal>
    ensures decides { (plan : List Area) → result
        ≡ call_new slice.now.division new.now
        (last_number slice.now.division (room_of plan slice.now.rows)) }
    ensures covers { IfOk result (Covers new.now) }
{
    let Some(division) = slice.rows.divisions.get(&slice.division) else {
        return Err(Refusal::NumbersUsedUp);
    };
    let Some(number) = Number::new(division.last_incident.get() + 1) else {
        return Err(Refusal::NumbersUsedUp);
    };
    let numbered = Division {
        last_incident: LastNumber::of(number.get()),
        ..*division
    };
    let incident = Change::PutIncident(new_incident(slice.division, number, new));
    let call = Change::PutCall(call_row(slice.division, number, false, new));
    let answer = Answer::Called(slice.division, number, false);
    let changes = [Change::PutDivision(numbered), incident, call];
    Ok(Decision::with_changes(answer, changes))
}

// The incident keeps its place.
fn with_call(new: &NewCall, incident: &Incident) -> Incident
    ensures { result ≡ with_call new.now incident.now }
{
    Incident {
        class: incident.class.min(new.class),
        needs: incident.needs.larger(new.needs),
        opened: incident.opened.min(new.at),
        ..*incident
    }
}

fn new_incident(division: DivisionNumber, number: Number, new: &NewCall) -> Incident
    ensures { result ≡ new_incident division number new.now }
{
    Incident {
        division,
        number,
        place: new.place,
        class: new.class,
        needs: new.needs,
        opened: new.at,
        first_order: None,
        state: State::Active,
    }
}

fn call_row(division: DivisionNumber, number: Number, linked: bool, new: &NewCall) -> Call
    ensures { result ≡ call_row division number linked new.now }
{
    Call {
        position: new.position,
        serial: new.serial,
        division,
        incident: number,
        given: number,
        linked,
        place: new.place,
        class: new.class,
        needs: new.needs,
        note: new.note,
        at: new.at,
    }
}

/// Whether the call belongs to the division's incident.
pub(crate) fn is_call_of(call: &Call, division: DivisionNumber, number: Number) -> bool
    ensures { result ≡ is_call_of division number call.now }
{
    call.division == division && call.incident == number
}
