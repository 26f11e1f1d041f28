//! What a crew asks, decided on its vehicle's rows.
ghost use Rattle.std.specs.Prelude.{◌≡◌, List, Ok, Some};
ghost use Rattle.room_place.specs.declared.plans.Area.{Area};
ghost use Rattle.room_model.specs.CrewJobs.{show_job};
ghost use Rattle.room_model.specs.Decisions.{Decides};
ghost use Rattle.room_model.specs.Queries.{assignment_at, vehicle_at};
ghost use Rattle.room_model.specs.Room.{IsInOrder, Room};
ghost use Rattle.room_model.specs.Shares.{AgreeOnJob, mine};
ghost use Rattle.room_model.specs.Step.{crew_asks};
ghost use Rattle.room_model.specs.RoomSlices.{AreCrewRows, room_of};
ghost use Rattle.room_model.specs.RoomAgreements.{IsWellFormed};
ghost use Rattle.room_model.specs.Reports.{last_of, order_of};
ghost use Rattle.room_core.specs.DecisionRows.{HasIncident, IsUnsent};

use room_fleet::reports::take_report;
use room_incident::crew_jobs::job;
use room_types::answers::Answer;
use room_types::asks::Ask;
use room_types::crews::{CrewRows, CrewSlice};
use room_types::decisions::Decision;
use room_types::numbers::Moment;
use room_types::refusal_statuses::Refusal;
use room_types::slices::Slice;
use room_types::tables::{Assignment, Vehicle};
use std::alloc::Global;

/// What a vehicle's crew asks. In every well-formed room that has these rows of the vehicle, and
/// has not kept the number of the report that is sent (the caller sees to that), the decision is
/// the room's. A request that is for no crew is refused as `WrongRole`, and so is that for a job,
/// which `decide_job` decides.
pub fn decide_crew(slice: &CrewSlice, ask: &Ask, at: Moment) -> Result<Decision, Refusal>
    ensures decides { (r : Room) → IsWellFormed r
        → AreCrewRows slice.now.rows.vehicle.callsign r slice.now.rows
        → IsUnsent slice.now.rows.vehicle.callsign ask.now r
        → result ≡ crew_asks slice.now.rows.vehicle.callsign ask.now at r }
    // In every other room where the vehicle has the same rows, it is that room's too.
    ensures apart { (r other : Room) → IsWellFormed r
        → AreCrewRows slice.now.rows.vehicle.callsign r slice.now.rows
        → IsUnsent slice.now.rows.vehicle.callsign ask.now r
        → IsInOrder other
        → mine slice.now.rows.vehicle.callsign r ≡ mine slice.now.rows.vehicle.callsign other
        → result ≡ crew_asks slice.now.rows.vehicle.callsign ask.now at other }
{
    match ask {
        Ask::Order => Ok(show_order(&slice.rows)),
        Ask::Report(press) => Ok(take_report(slice, press, at)),
        Ask::Last => Ok(show_last(&slice.rows)),
        _ => Err(Refusal::WrongRole),
    }
}

/// What a vehicle's crew that has an order is told of its incident. In every room that has these
/// rows of the vehicle, and of the incident what the slice has of it, the decision is the room's.
/// Only memory may be lacking.
pub fn decide_job(
    alloc: Global,
    slice: &Slice,
    vehicle: &Vehicle,
    order: &Assignment,
) -> Result<Decision, Refusal>
    ensures decides { (plan : List Area) (r : Room)
        → vehicle_at vehicle.now.callsign r ≡ Some vehicle.now
        → assignment_at vehicle.now.callsign r ≡ Some order.now
        → slice.now.division ≡ order.now.division
        → HasIncident order.now.division order.now.incident (room_of plan slice.now.rows) r
        → Decides (show_job vehicle.now.callsign r) result }
    // In every other room that has the same of the vehicle and of the incident, it is that room's.
    ensures apart { (plan : List Area) (r other : Room)
        → vehicle_at vehicle.now.callsign r ≡ Some vehicle.now
        → assignment_at vehicle.now.callsign r ≡ Some order.now
        → slice.now.division ≡ order.now.division
        → HasIncident order.now.division order.now.incident (room_of plan slice.now.rows) r
        → IsInOrder r → IsInOrder other → AgreeOnJob vehicle.now.callsign r other
        → Decides (show_job vehicle.now.callsign other) result }
{
    job(alloc, slice, vehicle, order)
}

// The vehicle's order, its post and its status.
fn show_order(rows: &CrewRows) -> Decision
    ensures { Ok result ≡ order_of (Some rows.now.vehicle) rows.now.assignment }
{
    Decision::show(Answer::Order(rows.assignment, rows.vehicle.post, rows.vehicle.status))
}

// The last numbers of the vehicle's reports and orders.
fn show_last(rows: &CrewRows) -> Decision
    ensures { Ok result ≡ last_of (Some rows.now.vehicle) }
{
    let vehicle = &rows.vehicle;
    Decision::show(Answer::LastReport(vehicle.last_report, vehicle.last_order))
}
