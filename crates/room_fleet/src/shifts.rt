//! A vehicle's shifts.
ghost use Rattle.std.specs.Prelude.{◌≡◌};
ghost use Rattle.room_model.specs.Vehicles.{on_duty, off_duty};

use room_place::places::Place;
use room_types::changes::Change;
use room_types::codes::Status;
use room_types::decisions::Decision;
use room_types::numbers::Moment;
use room_types::refusal_statuses::Refusal;
use room_types::tables::Vehicle;

/// The vehicle on duty: available at a place, with a shift up to `until`.
///
/// Refused as `WrongStatus` where it is not off duty, then as `ShiftOver` where the shift would
/// have ended at this moment or before.
#[tactic(auto, unfolding(room_model::specs::Decisions::refuse_if))]
pub fn on_duty(
    vehicle: &Vehicle,
    place: &Place,
    until: Moment,
    at: Moment,
) -> Result<Decision, Refusal>
    ensures { result ≡ on_duty place.now until at vehicle.now }
{
    if !vehicle.status.is_off() {
        return Err(Refusal::WrongStatus);
    }
    if until <= at {
        return Err(Refusal::ShiftOver);
    }
    let on_duty = Vehicle {
        status: Status::Available,
        shift_end: until,
        place: *place,
        ..*vehicle
    };
    Ok(Decision::done([Change::PutVehicle(on_duty)]))
}

/// The vehicle off duty, and without a post.
///
/// Refused as `StillAssigned` where it has an order, then as `WrongStatus` where it is off duty or
/// offered.
#[tactic(auto, unfolding(room_model::specs::Decisions::refuse_if))]
pub fn off_duty(vehicle: &Vehicle) -> Result<Decision, Refusal>
    ensures { result ≡ off_duty vehicle.now }
{
    if vehicle.status.is_busy() {
        return Err(Refusal::StillAssigned);
    }
    if !vehicle.status.is_free() {
        return Err(Refusal::WrongStatus);
    }
    let off_duty = Vehicle {
        status: Status::OffDuty,
        post: None,
        ..*vehicle
    };
    Ok(Decision::done([Change::PutVehicle(off_duty)]))
}
