//! Standby points, and the vehicles sent to them.
ghost use Rattle.std.specs.Prelude.{◌≡◌, Ok, List};
ghost use Rattle.room_place.specs.declared.plans.Area.{Area};
ghost use Rattle.room_model.specs.Points.{set_point};
ghost use Rattle.room_model.specs.RoomSlices.{room_of};
ghost use Rattle.room_model.specs.Vehicles.{standby};

use crate::held_vehicles::held;
use room_place::places::Place;
use room_types::callsign::Callsign;
use room_types::changes::Change;
use room_types::decisions::Decision;
use room_types::numbers::{Cover, Moment, PointNumber};
use room_types::refusal_statuses::Refusal;
use room_types::slices::Slice;
use room_types::tables::{Point, Vehicle};

/// Posts the vehicle to this point, or to none.
///
/// Refused as `held` refuses, then as `WrongStatus` where it is neither available nor returning;
/// of a point then as `ShiftOver` where its shift is over, and as `NoSuchPoint` where the division
/// has no such point.
#[tactic(auto, unfolding(room_model::specs::Vehicles::standby, room_model::specs::Decisions::refuse_if, room_model::specs::Queries::point_of))]
pub fn post(
    slice: &Slice,
    callsign: &Callsign,
    point: Option<PointNumber>,
    at: Moment,
) -> Result<Decision, Refusal>
    ensures { (plan : List Area)
        → result ≡ standby slice.now.division callsign.now point at (room_of plan slice.now.rows) }
{
    let vehicle = held(slice, callsign)?;
    if !vehicle.status.is_free() {
        return Err(Refusal::WrongStatus);
    }
    if let Some(number) = point {
        if vehicle.shift_end <= at {
            return Err(Refusal::ShiftOver);
        }
        if slice.rows.points.get(&(slice.division, number)).is_none() {
            return Err(Refusal::NoSuchPoint);
        }
    }
    let posted = Vehicle {
        post: point,
        ..*vehicle
    };
    Ok(Decision::done([Change::PutVehicle(posted)]))
}

/// Puts a point of this number at this place, where so many vehicles are wanted: a new one, or in
/// place of the one that the division has.
pub fn set_point(slice: &Slice, number: PointNumber, place: &Place, cover: Cover) -> Decision
    ensures { set_point slice.now.division number place.now cover ≡ Ok result }
{
    let point = Point {
        division: slice.division,
        number,
        place: *place,
        cover,
    };
    Decision::done([Change::PutPoint(point)])
}
