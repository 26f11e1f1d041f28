//! What came of one incident: its calls, its turns, and how many vehicles serve it.
ghost use Rattle.std.specs.Prelude.{◌≡◌, ◌==◌, ◌&&◌, ◌||◌, List, IfErr, IfOk};
ghost use Rattle.room_place.specs.declared.plans.Area.{Area};
ghost use Rattle.room_types.specs.declared.refusal_statuses.Refusal.TheVariants.{Memory};
ghost use Rattle.room_model.specs.Decisions.{Decides};
ghost use Rattle.room_model.specs.Incidents.{all_served, show_incident};
ghost use Rattle.room_model.specs.Queries.{calls_of, is_given, turns_of};
ghost use Rattle.room_model.specs.RoomSlices.{room_of};

use crate::calls::is_call_of;
use crate::served_needs::served;
use room_place::plans::DivisionNumber;
use room_types::answers::{Answer, History, Listed, Served};
use room_types::codes::Kind;
use room_types::decisions::Decision;
use room_types::numbers::Number;
use room_types::refusal_statuses::Refusal;
use room_types::slices::Slice;
use room_types::tables::{Call, Turn};
use std::alloc::Global;

/// Shows one of the division's incidents, active or not, with its calls, and with its turns and
/// those of the incidents that were merged into it, in the order of their keys. Refused as
/// `NoSuchIncident` where it is not there. `Memory` may be refused where it is.
#[tactic(auto, unfolding(room_model::specs::Incidents::show_incident, room_model::specs::Queries::incident_of))]
pub fn incident(alloc: Global, slice: &Slice, number: Number) -> Result<Decision, Refusal>
    ensures decides { (plan : List Area) → Decides
        (show_incident slice.now.division number (room_of plan slice.now.rows)) result }
{
    let Some(incident) = slice.rows.incidents.get(&(slice.division, number)) else {
        return Err(Refusal::NoSuchIncident);
    };
    let calls = calls_of(alloc, slice, number)?;
    let turns = turns_of(alloc, slice, number, &calls)?;
    let history = History {
        incident: *incident,
        served: all_served(slice, number),
        calls,
        turns,
    };
    Ok(Decision::show(Answer::Incident(history)))
}

fn all_served(slice: &Slice, number: Number) -> Served
    ensures { (plan : List Area) → result ≡ all_served slice.now.division number
        (room_of plan slice.now.rows) }
{
    let turns = &slice.rows.turns;
    Served {
        ambulances: served(turns, slice.division, number, Kind::Ambulance) as u64,
        cars: served(turns, slice.division, number, Kind::Car) as u64,
        support: served(turns, slice.division, number, Kind::Support) as u64,
    }
}

fn calls_of(alloc: Global, slice: &Slice, number: Number) -> Result<Listed<Call>, Refusal>
    ensures ok { IfOk result (λ calls. (plan : List Area)
        → calls ≡ calls_of slice.now.division number (room_of plan slice.now.rows)) }
    ensures memory { IfErr result (λ e. e ≡ Memory) }
{
    let mut calls = Listed::new(alloc);
    for call in slice.rows.calls.as_slice() {
        if is_call_of(call, slice.division, number) {
            calls.push(*call)?;
        }
    }
    Ok(calls)
}

// An incident that was merged into this one is the one that a call of this one was given.
fn turns_of(
    alloc: Global,
    slice: &Slice,
    number: Number,
    calls: &Listed<Call>,
) -> Result<Listed<Turn>, Refusal>
    requires calls { (plan : List Area)
        → calls.now ≡ calls_of slice.now.division number (room_of plan slice.now.rows) }
    ensures ok { IfOk result (λ turns. (plan : List Area)
        → turns ≡ turns_of slice.now.division number (room_of plan slice.now.rows)) }
    ensures memory { IfErr result (λ e. e ≡ Memory) }
{
    let mut turns = Listed::new(alloc);
    for turn in slice.rows.turns.as_slice() {
        if is_shown(turn, slice.division, number, calls) {
            turns.push(*turn)?;
        }
    }
    Ok(turns)
}

// Whether a turn is the division's, of an incident or of one that some call was given.
fn is_shown(turn: &Turn, division: DivisionNumber, number: Number, calls: &Listed<Call>) -> bool
    ensures { result ≡ turn.now.division == division && (turn.now.incident == number ||
        is_given calls.now turn.now.incident) }
{
    turn.division == division && (turn.incident == number || is_given(calls, turn.incident))
}

fn is_given(calls: &Listed<Call>, number: Number) -> bool
    ensures { result ≡ is_given calls.now number }
{
    calls.as_slice().iter().any(|call| call.given == number)
}
