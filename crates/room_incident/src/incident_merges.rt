//! One incident goes into another.
ghost use Rattle.std.specs.Prelude.{◌≡◌, ◌++◌, List, Some, IfErr, IfOk, OnOk, map};
ghost use Rattle.room_place.specs.declared.plans.Area.{Area};
ghost use Rattle.room_types.specs.Slices.{incident_at};
ghost use Rattle.room_types.specs.declared.refusal_statuses.Refusal.TheVariants.{Memory};
ghost use Rattle.room_types.specs.declared.tables.Incident.{Incident};
ghost use Rattle.room_model.specs.Decisions.{Decides};
ghost use Rattle.room_model.specs.Incidents.{joined, merge, moved_call};
ghost use Rattle.room_model.specs.Moments.{earlier};
ghost use Rattle.room_model.specs.Queries.{calls_of};
ghost use Rattle.room_model.specs.RoomSlices.{room_of};
ghost use Rattle.room_incident.specs.IncidentMerges.{Joins};

use crate::calls::is_call_of;
use crate::served_needs::is_attended;
use room_types::answers::{Answer, Listed};
use room_types::changes::{Change, Changes};
use room_types::codes::State;
use room_types::decisions::Decision;
use room_types::numbers::{Moment, Number};
use room_types::refusal_statuses::Refusal;
use room_types::slices::Slice;
use room_types::tables::{Call, Incident};
use std::alloc::Global;

/// Merges one of the division's incidents into another, which gets the lower class, the larger
/// needs, the earlier opening, the earlier first order, and the calls.
///
/// Refused as `NoSuchIncident` where either is not there, then as `SameIncident`, then as
/// `IncidentNotOpen` where either is not active, then as `StillAssigned` where the one that goes
/// has an open turn. `Memory` may be refused where nothing else is.
#[tactic(auto, unfolding(room_model::specs::Decisions::refuse_if, room_model::specs::Incidents::merge, room_model::specs::Queries::incident_of))]
pub fn merge(alloc: Global, slice: &Slice, from: Number, into: Number) -> Result<Decision, Refusal>
    ensures decides { (plan : List Area) → Decides
        (merge slice.now.division from into (room_of plan slice.now.rows)) result }
    ensures joins { IfOk result (λ x. (n m : Incident)
        → incident_at slice.now.division from slice.now.rows ≡ Some n
        → incident_at slice.now.division into slice.now.rows ≡ Some m → Joins n m x) }
{
    let Some(source) = slice.rows.incidents.get(&(slice.division, from)) else {
        return Err(Refusal::NoSuchIncident);
    };
    let Some(target) = slice.rows.incidents.get(&(slice.division, into)) else {
        return Err(Refusal::NoSuchIncident);
    };
    if source.number == target.number {
        return Err(Refusal::SameIncident);
    }
    if !source.state.is_active() || !target.state.is_active() {
        return Err(Refusal::IncidentNotOpen);
    }
    if is_attended(&slice.rows.turns, slice.division, from) {
        return Err(Refusal::StillAssigned);
    }
    let merged = Incident {
        state: State::Merged(target.number),
        ..*source
    };
    let mut changes = Listed::new(alloc);
    changes.push(Change::PutIncident(with_source(source, target)))?;
    changes.push(Change::PutIncident(merged))?;
    move_calls(&mut changes, slice, from, target.number)?;
    Ok(Decision {
        changes: Changes::many(changes),
        answer: Answer::Done,
    })
}

// The target keeps its number and its place.
fn with_source(source: &Incident, target: &Incident) -> Incident
    ensures { result ≡ joined source.now target.now }
{
    Incident {
        class: source.class.min(target.class),
        needs: source.needs.larger(target.needs),
        opened: source.opened.min(target.opened),
        first_order: earlier(source.first_order, target.first_order),
        ..*target
    }
}

// Of two moments, where either is there.
fn earlier(one: Option<Moment>, other: Option<Moment>) -> Option<Moment>
    ensures { result ≡ earlier one other }
{
    match (one, other) {
        (None, other) => other,
        (Some(one), None) => Some(one),
        (Some(one), Some(other)) => Some(one.min(other)),
    }
}

// The calls of the one as calls of the other. What each was answered stays.
fn move_calls(
    changes: &mut Listed<Change>,
    slice: &Slice,
    from: Number,
    into: Number,
) -> Result<(), Refusal>
    ensures ok { OnOk result ((plan : List Area)
        → changes.new ≡ changes.old ++ map (moved_call into)
        (calls_of slice.now.division from (room_of plan slice.now.rows))) }
    ensures memory { IfErr result (λ e. e ≡ Memory) }
{
    for call in slice.rows.calls.as_slice() {
        if is_call_of(call, slice.division, from) {
            let call = Call {
                incident: into,
                ..*call
            };
            changes.push(Change::PutCall(call))?;
        }
    }
    Ok(())
}
