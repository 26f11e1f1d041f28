//! What a desk is shown of its vehicles, standby points, loans and offers.
ghost use Rattle.std.specs.Prelude.{◌≡◌, List, IfErr, IfOk, map};
ghost use Rattle.room_place.specs.declared.plans.Area.{Area};
ghost use Rattle.room_types.specs.declared.refusal_statuses.Refusal.TheVariants.{Memory};
ghost use Rattle.room_model.specs.Decisions.{Decides};
ghost use Rattle.room_model.specs.Loans.{show_loans, show_offers};
ghost use Rattle.room_model.specs.Points.{point_line, show_points};
ghost use Rattle.room_model.specs.RoomSlices.{room_of, unplanned};
ghost use Rattle.room_model.specs.Vehicles.{show_vehicles, vehicle_line};

use crate::cover::holders;
use room_types::answers::{Answer, Listed, PointLine, VehicleLine};
use room_types::decisions::Decision;
use room_types::numbers::Moment;
use room_types::refusal_statuses::Refusal;
use room_types::slices::Slice;
use room_types::tables::{Point, Vehicle};
use std::alloc::Global;

/// The vehicles that the division holds, in callsign order, each with the incident that it is
/// assigned to. The one refusal is `Memory`.
#[tactic(auto, unfolding(room_model::specs::Vehicles::show_vehicles))]
pub fn vehicles(alloc: Global, slice: &Slice) -> Result<Decision, Refusal>
    ensures { (plan : List Area) → Decides
        (show_vehicles slice.now.division (room_of plan slice.now.rows)) result }
{
    let lines = vehicle_lines(alloc, slice, slice.rows.vehicles.as_slice())?;
    Ok(Decision::show(Answer::Vehicles(lines)))
}

fn vehicle_lines(
    alloc: Global,
    slice: &Slice,
    vehicles: &[Vehicle],
) -> Result<Listed<VehicleLine>, Refusal>
    ensures ok { IfOk result (λ lines.
        lines ≡ map (vehicle_line slice.now.division (unplanned slice.now.rows)) vehicles.now) }
    ensures memory { IfErr result (λ e. e ≡ Memory) }
{
    let mut lines = Listed::new(alloc);
    for vehicle in vehicles {
        lines.push(vehicle_line(slice, vehicle))?;
    }
    Ok(lines)
}

fn vehicle_line(slice: &Slice, vehicle: &Vehicle) -> VehicleLine
    ensures { result ≡ vehicle_line slice.now.division (unplanned slice.now.rows) vehicle.now }
{
    let assignment = slice.rows.assignments.get(&vehicle.callsign);
    VehicleLine {
        callsign: vehicle.callsign,
        home: vehicle.home,
        incident: assignment.map(|assignment| assignment.incident),
        kind: vehicle.kind,
        place: vehicle.place,
        post: vehicle.post,
        shift_end: vehicle.shift_end,
        status: vehicle.status,
    }
}

/// The division's points in number order, each with the number of vehicles that hold it now,
/// counted in 64 bits. So the one refusal is `Memory`.
#[tactic(auto, unfolding(room_model::specs::Points::show_points))]
pub fn points(alloc: Global, slice: &Slice, at: Moment) -> Result<Decision, Refusal>
    ensures { (plan : List Area) → Decides
        (show_points slice.now.division at (room_of plan slice.now.rows)) result }
{
    let lines = point_lines(alloc, slice, slice.rows.points.as_slice(), at)?;
    Ok(Decision::show(Answer::Points(lines)))
}

fn point_lines(
    alloc: Global,
    slice: &Slice,
    points: &[Point],
    at: Moment,
) -> Result<Listed<PointLine>, Refusal>
    ensures ok { IfOk result (λ lines.
        lines ≡ map (point_line slice.now.division at (unplanned slice.now.rows)) points.now) }
    ensures memory { IfErr result (λ e. e ≡ Memory) }
{
    let mut lines = Listed::new(alloc);
    for point in points {
        lines.push(point_line(slice, point, at))?;
    }
    Ok(lines)
}

fn point_line(slice: &Slice, point: &Point, at: Moment) -> PointLine
    ensures { result ≡ point_line slice.now.division at (unplanned slice.now.rows) point.now }
{
    PointLine {
        number: point.number,
        place: point.place,
        cover: point.cover,
        held: holders(slice, point.number, at) as u64,
    }
}

/// The loans of which the division is lender or borrower, in callsign order. The one refusal is
/// `Memory`.
#[tactic(auto, unfolding(room_model::specs::Loans::show_loans))]
pub fn loans(alloc: Global, slice: &Slice) -> Result<Decision, Refusal>
    ensures { (plan : List Area) → Decides
        (show_loans slice.now.division (room_of plan slice.now.rows)) result }
{
    let loans = listed(alloc, slice.rows.loans.as_slice())?;
    Ok(Decision::show(Answer::Loans(loans)))
}

/// The offers of which the division is lender or borrower, in callsign order. The one refusal is
/// `Memory`.
#[tactic(auto, unfolding(room_model::specs::Loans::show_offers))]
pub fn offers(alloc: Global, slice: &Slice) -> Result<Decision, Refusal>
    ensures { (plan : List Area) → Decides
        (show_offers slice.now.division (room_of plan slice.now.rows)) result }
{
    let offers = listed(alloc, slice.rows.offers.as_slice())?;
    Ok(Decision::show(Answer::Offers(offers)))
}

/// The lines of a slice. The one refusal is `Memory`.
pub fn listed<L: Copy>(alloc: Global, lines: &[L]) -> Result<Listed<L>, Refusal>
    ensures ok { IfOk result (λ copies. copies ≡ lines.now) }
    ensures memory { IfErr result (λ e. e ≡ Memory) }
{
    let mut copies = Listed::new(alloc);
    for line in lines {
        copies.push(*line)?;
    }
    Ok(copies)
}
