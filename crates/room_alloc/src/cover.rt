//! Which vehicles may be sent, and which of them hold a standby point.
ghost use Rattle.std.specs.Prelude.{◌≡◌, List, length, filter, option_map};
ghost use Rattle.room_place.specs.declared.plans.Area.{Area};
ghost use Rattle.room_model.specs.Points.{breaks_cover, breaks_post};
ghost use Rattle.room_model.specs.Queries.{has_post, holders, is_eligible, point_of};
ghost use Rattle.room_model.specs.RoomSlices.{room_of};
ghost use Rattle.room_alloc.specs.Cover.{is_holder};

use room_place::plans::DivisionNumber;
use room_types::numbers::{Moment, PointNumber};
use room_types::slices::Slice;
use room_types::tables::Vehicle;

/// How many vehicles hold the point now; none where the division has no such point.
#[tactic(auto, unfolding(room_model::specs::Queries::point_of))]
pub fn cover(slice: &Slice, point: PointNumber, at: Moment) -> Option<usize>
    ensures { (plan : List Area) → result ≡ option_map (λ p.
        length (holders slice.now.division point at (room_of plan slice.now.rows)))
        (point_of slice.now.division point (room_of plan slice.now.rows)) }
{
    match slice.rows.points.get(&(slice.division, point)) {
        Some(_) => Some(holders(slice, point, at)),
        None => None,
    }
}

/// Whether the vehicle holds its post, and as many as hold it are wanted there.
pub fn breaks_cover(slice: &Slice, vehicle: &Vehicle, at: Moment) -> bool
    ensures { (plan : List Area) → result
        ≡ breaks_cover slice.now.division at (room_of plan slice.now.rows) vehicle.now }
{
    eligible(vehicle, slice.division, at) && breaks_post(slice, vehicle.post, at)
}

#[tactic(auto, unfolding(room_model::specs::Queries::point_of))]
fn breaks_post(slice: &Slice, post: Option<PointNumber>, at: Moment) -> bool
    ensures { (plan : List Area)
        → result ≡ breaks_post slice.now.division at (room_of plan slice.now.rows) post }
{
    let Some(number) = post else {
        return false;
    };
    match slice.rows.points.get(&(slice.division, number)) {
        Some(point) => holders(slice, number, at) <= point.cover.get() as usize,
        None => false,
    }
}

/// Whether the division may send the vehicle: it holds it, free and within its shift.
pub fn eligible(vehicle: &Vehicle, division: DivisionNumber, at: Moment) -> bool
    ensures { result ≡ is_eligible division at vehicle.now }
{
    vehicle.holder == division && vehicle.status.is_free() && at < vehicle.shift_end
}

// How many vehicles hold the point.
#[tactic(auto, unfolding(room_model::specs::Queries::holders))]
pub(crate) fn holders(slice: &Slice, point: PointNumber, at: Moment) -> usize
    ensures { (plan : List Area) → result ≡ length
        (holders slice.now.division point at (room_of plan slice.now.rows)) }
{
    holders_among(slice.rows.vehicles.as_slice(), slice.division, point, at)
}

fn holders_among(
    vehicles: &[Vehicle],
    division: DivisionNumber,
    point: PointNumber,
    at: Moment,
) -> usize
    ensures { result ≡ length (filter (is_holder division point at) vehicles.now) }
{
    vehicles
        .iter()
        .filter(|vehicle| is_holder(vehicle, division, point, at))
        .count()
}

fn is_holder(vehicle: &Vehicle, division: DivisionNumber, point: PointNumber, at: Moment) -> bool
    ensures { result ≡ is_holder division point at vehicle.now }
{
    eligible(vehicle, division, at) && has_post(vehicle, point)
}

fn has_post(vehicle: &Vehicle, point: PointNumber) -> bool
    ensures { result ≡ has_post point vehicle.now.post }
{
    match vehicle.post {
        Some(post) => post == point,
        None => false,
    }
}
