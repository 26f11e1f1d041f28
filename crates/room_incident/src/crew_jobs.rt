//! What a crew is told of the incident that it has an order for.
ghost use Rattle.std.specs.Prelude.{◌≡◌, IfErr, IfOk, List, map};
ghost use Rattle.room_place.specs.declared.plans.Area.{Area};
ghost use Rattle.room_types.specs.declared.refusal_statuses.Refusal.TheVariants.{Memory};
ghost use Rattle.room_model.specs.CrewJobs.{job_of};
ghost use Rattle.room_model.specs.Decisions.{Decides};
ghost use Rattle.room_model.specs.Queries.{calls_of, incident_of};
ghost use Rattle.room_model.specs.RoomSlices.{room_of};

use crate::calls::is_call_of;
use room_types::answers::{Answer, Job, Listed};
use room_types::decisions::Decision;
use room_types::note::Note;
use room_types::numbers::Number;
use room_types::refusal_statuses::Refusal;
use room_types::slices::Slice;
use room_types::tables::{Assignment, Vehicle};
use std::alloc::Global;

/// Shows a vehicle's order, with the class of its incident and the notes of that incident's calls
/// in the order of their keys. Refused as `NoSuchIncident` where the division's rows have no such
/// incident. `Memory` may be refused where they have.
#[tactic(auto, unfolding(room_model::specs::Queries::incident_of))]
pub fn job(
    alloc: Global,
    slice: &Slice,
    vehicle: &Vehicle,
    order: &Assignment,
) -> Result<Decision, Refusal>
    ensures { (plan : List Area) → Decides (job_of vehicle.now order.now
        (incident_of slice.now.division order.now.incident (room_of plan slice.now.rows))
        (calls_of slice.now.division order.now.incident (room_of plan slice.now.rows))) result }
{
    let number = order.incident;
    let Some(incident) = slice.rows.incidents.get(&(slice.division, number)) else {
        return Err(Refusal::NoSuchIncident);
    };
    let job = Job {
        order: *order,
        post: vehicle.post,
        status: vehicle.status,
        class: incident.class,
        notes: notes_of(alloc, slice, number)?,
    };
    Ok(Decision::show(Answer::Job(job)))
}

fn notes_of(alloc: Global, slice: &Slice, number: Number) -> Result<Listed<Note>, Refusal>
    ensures ok { IfOk result (λ notes. (plan : List Area) → notes
        ≡ map (λ c. c.note) (calls_of slice.now.division number (room_of plan slice.now.rows))) }
    ensures memory { IfErr result (λ e. e ≡ Memory) }
{
    let mut notes = Listed::new(alloc);
    for call in slice.rows.calls.as_slice() {
        if is_call_of(call, slice.division, number) {
            notes.push(call.note)?;
        }
    }
    Ok(notes)
}
