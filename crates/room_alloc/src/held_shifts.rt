//! The shifts of the vehicles that a division holds.
ghost use Rattle.std.specs.Prelude.{◌≡◌, List};
ghost use Rattle.room_place.specs.declared.plans.Area.{Area};
ghost use Rattle.room_model.specs.RoomSlices.{room_of};
ghost use Rattle.room_model.specs.Vehicles.{duty, off};

use crate::held_vehicles::held;
use room_fleet::shifts;
use room_place::places::Place;
use room_types::callsign::Callsign;
use room_types::decisions::Decision;
use room_types::numbers::Moment;
use room_types::refusal_statuses::Refusal;
use room_types::slices::Slice;

/// Begins a vehicle's shift at a place, up to `until`.
///
/// Refused as `held` refuses, then as a vehicle's shift is.
#[tactic(auto, unfolding(room_model::specs::Vehicles::duty))]
pub fn on_duty(
    slice: &Slice,
    callsign: &Callsign,
    place: &Place,
    until: Moment,
    at: Moment,
) -> Result<Decision, Refusal>
    ensures { (plan : List Area) → result
        ≡ duty slice.now.division callsign.now place.now until at (room_of plan slice.now.rows) }
{
    let vehicle = held(slice, callsign)?;
    shifts::on_duty(vehicle, place, until, at)
}

/// Ends a vehicle's shift.
///
/// Refused as `held` refuses, then as the end of a vehicle's shift is.
#[tactic(auto, unfolding(room_model::specs::Vehicles::off))]
pub fn off_duty(slice: &Slice, callsign: &Callsign) -> Result<Decision, Refusal>
    ensures { (plan : List Area)
        → result ≡ off slice.now.division callsign.now (room_of plan slice.now.rows) }
{
    let vehicle = held(slice, callsign)?;
    shifts::off_duty(vehicle)
}
