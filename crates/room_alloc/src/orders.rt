//! A vehicle's order for an incident, and its end by the desk.
ghost use Rattle.std.specs.Prelude.{◌≡◌, ◌+◌, ◌∷◌, [], ℕ, List, IfOk, None, Some, nat_le};
ghost use Rattle.std.specs.Prelude.{if◌then◌else◌, option_copied};
ghost use Rattle.room_place.specs.declared.plans.Area.{Area};
ghost use Rattle.room_types.specs.Needs.{need_of};
ghost use Rattle.room_types.specs.Slices.{assignment_at, vehicle_at};
ghost use Rattle.room_types.specs.declared.codes.Status.TheVariants as status;
ghost use Rattle.room_model.specs.Moments.{number_limit};
ghost use Rattle.room_model.specs.Queries.{open_turn, served};
ghost use Rattle.room_model.specs.RoomSlices.{room_of};
ghost use Rattle.room_model.specs.Vehicles.{assignment_row, mobilise, stand_down, turn_row};
ghost use Rattle.room_model.specs.Vehicles.{turn_stood_down};

use crate::held_vehicles::held;
use room_incident::active_incidents::active;
use room_incident::served_needs::lack;
use room_types::answers::Answer;
use room_types::callsign::Callsign;
use room_types::changes::Change;
use room_types::codes::{Kind, Status};
use room_types::decisions::Decision;
use room_types::numbers::{LastNumber, Moment, Number};
use room_types::refusal_statuses::Refusal;
use room_types::slices::Slice;
use room_types::tables::{Assignment, Incident, Turn, Vehicle};

/// Orders a vehicle to an incident, under its next order number.
///
/// Refused as `active` refuses, then as `held` does, then as `WrongStatus` where the vehicle is
/// neither available nor returning, `ShiftOver` where its shift is over, `NotNeeded` where the
/// incident lacks no vehicle of its kind, `NumbersUsedUp` where its order numbers are.
#[tactic(auto, unfolding(room_model::specs::Vehicles::mobilise, room_model::specs::Decisions::refuse_if))]
pub fn mobilise(
    slice: &Slice,
    number: Number,
    callsign: &Callsign,
    at: Moment,
) -> Result<Decision, Refusal>
    ensures decides { (plan : List Area) → result
        ≡ mobilise slice.now.division number callsign.now at (room_of plan slice.now.rows) }
    // The vehicle had no assignment.
    ensures unassigned { IfOk result (λ _. assignment_at callsign.now slice.now.rows ≡ None) }
{
    let incident = active(slice, number)?;
    let vehicle = held(slice, callsign)?;
    if !vehicle.status.is_free() {
        return Err(Refusal::WrongStatus);
    }
    if vehicle.shift_end <= at {
        return Err(Refusal::ShiftOver);
    }
    if is_met(slice, incident, vehicle.kind) {
        return Err(Refusal::NotNeeded);
    }
    let Some(order) = next_order(vehicle) else {
        return Err(Refusal::NumbersUsedUp);
    };
    let sent_to = Incident {
        first_order: incident.first_order.or(Some(at)),
        ..*incident
    };
    let changes = [
        Change::PutIncident(sent_to),
        Change::PutVehicle(mobilised(vehicle, order)),
        Change::PutTurn(turn(incident, vehicle, order, at)),
        Change::PutAssignment(assignment(incident, vehicle, order)),
    ];
    let answer = Answer::Mobilised(order, vehicle.callsign);
    Ok(Decision::with_changes(answer, changes))
}

// Whether the incident has got as many vehicles of the kind as it needs.
fn is_met(slice: &Slice, incident: &Incident, kind: Kind) -> bool
    requires { incident.now.division ≡ slice.now.division }
    ensures { (n : ℕ) (plan : List Area) → incident.now.number ≡ n
        → result ≡ nat_le (need_of incident.now.needs kind)
        (served slice.now.division n kind (room_of plan slice.now.rows)) }
{
    lack(incident, &slice.rows.turns, kind).get() == 0
}

// None where the vehicle's order numbers are used up.
fn next_order(vehicle: &Vehicle) -> Option<Number>
    ensures { result ≡ (if nat_le number_limit vehicle.now.last_order then None else Some
        (vehicle.now.last_order + 1)) }
{
    Number::new(vehicle.last_order.get() + 1)
}

fn mobilised(vehicle: &Vehicle, order: Number) -> Vehicle
    ensures { result ≡ record vehicle.now
        { status = status.Mobilised; post = None; last_order = order } }
{
    Vehicle {
        status: Status::Mobilised,
        post: None,
        last_order: LastNumber::of(order.get()),
        ..*vehicle
    }
}

fn turn(incident: &Incident, vehicle: &Vehicle, order: Number, at: Moment) -> Turn
    requires { order ≡ vehicle.now.last_order + 1 }
    ensures { result ≡ turn_row incident.now.division incident.now.number at vehicle.now }
{
    Turn {
        callsign: vehicle.callsign,
        order,
        division: incident.division,
        incident: incident.number,
        kind: vehicle.kind,
        ordered: at,
        acknowledged: None,
        scene: None,
        left: None,
        hospital: None,
        ended: None,
        stood_down: false,
    }
}

fn assignment(incident: &Incident, vehicle: &Vehicle, order: Number) -> Assignment
    requires { order ≡ vehicle.now.last_order + 1 }
    ensures { result ≡ assignment_row incident.now.division incident.now vehicle.now }
{
    Assignment {
        callsign: vehicle.callsign,
        division: incident.division,
        incident: incident.number,
        order,
        place: incident.place,
        class: incident.class,
    }
}

/// Stands a mobilised vehicle down: it is returning and without its assignment, and its open turn,
/// where the slice has one, which in a well-formed room it has, is ended as stood down.
///
/// Refused as `held` refuses, then as `WrongStatus` where the vehicle is not mobilised.
#[tactic(auto, unfolding(room_model::specs::Vehicles::stand_down, room_model::specs::Decisions::refuse_if))]
pub fn stand_down(slice: &Slice, callsign: &Callsign, at: Moment) -> Result<Decision, Refusal>
    ensures { (plan : List Area)
        → result ≡ stand_down slice.now.division callsign.now at (room_of plan slice.now.rows) }
{
    let vehicle = held(slice, callsign)?;
    if !vehicle.status.is_mobilised() {
        return Err(Refusal::WrongStatus);
    }
    let returning = Vehicle {
        status: Status::Returning,
        ..*vehicle
    };
    let dropped = Change::DropAssignment(vehicle.callsign);
    let put = Change::PutVehicle(returning);
    let decision = match open_turn(slice, callsign, vehicle) {
        Some(turn) => Decision::done([stood_down(turn, at), dropped, put]),
        None => Decision::done([dropped, put]),
    };
    Ok(decision)
}

fn stood_down(turn: &Turn, at: Moment) -> Change
    ensures { turn_stood_down at (Some turn.now) ≡ result ∷ [] }
{
    Change::PutTurn(Turn {
        ended: Some(at),
        stood_down: true,
        ..*turn
    })
}

// The vehicle's open turn.
fn open_turn<'a>(slice: &'a Slice, callsign: &Callsign, vehicle: &Vehicle) -> Option<&'a Turn>
    requires { vehicle_at callsign.now slice.now.rows ≡ Some vehicle.now }
    ensures { (plan : List Area)
        → option_copied result ≡ open_turn slice.now.division callsign.now
        (room_of plan slice.now.rows) }
{
    // It also says that the turns are in order, so that the first open one is this one.
    let _in_order = slice.rows.turns.as_slice();
    slice.rows.open_turn(vehicle)
}
