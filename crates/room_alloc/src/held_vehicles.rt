//! The vehicles that a division holds, by their callsigns.
ghost use Rattle.std.specs.Prelude.{◌≡◌, List, Some, Err, IfOk, IfSome, MatchResult, option_copied};
ghost use Rattle.room_place.specs.declared.plans.Area.{Area};
ghost use Rattle.room_types.specs.Slices.{vehicle_at};
ghost use Rattle.room_types.specs.declared.tables.Vehicle.{Vehicle};
ghost use Rattle.room_model.specs.Decisions.{Verdict, where_held, not_held};
ghost use Rattle.room_model.specs.Queries.{held, lent};
ghost use Rattle.room_model.specs.RoomSlices.{room_of};

use room_types::callsign::Callsign;
use room_types::refusal_statuses::Refusal;
use room_types::slices::Slice;
use room_types::tables::{Loan, Vehicle};

/// The vehicle, where the division holds it.
///
/// Refused as `VehicleLent` where the division has lent it, and otherwise as `NoSuchVehicle`,
/// whether another division has such a vehicle or not.
pub fn held<'a>(slice: &'a Slice, callsign: &Callsign) -> Result<&'a Vehicle, Refusal>
    // Whatever is decided of a held vehicle, in whichever plan.
    ensures decided { (plan : List Area) (decide : Vehicle → Verdict)
        → MatchResult result (λ v.
        where_held (held slice.now.division callsign.now (room_of plan slice.now.rows))
        (lent slice.now.division callsign.now
        (room_of plan slice.now.rows)) decide ≡ decide v.now) (λ refusal.
        where_held (held slice.now.division callsign.now (room_of plan slice.now.rows))
        (lent slice.now.division callsign.now (room_of plan slice.now.rows)) decide ≡ Err refusal) }
    ensures there { IfOk result (λ v. vehicle_at callsign.now slice.now.rows ≡ Some v.now) }
{
    match find(slice, callsign) {
        Some(vehicle) => Ok(vehicle),
        None => Err(not_held(slice, callsign)),
    }
}

/// The vehicle, where the division holds it.
#[tactic(auto, unfolding(room_model::specs::Queries::held))]
pub fn find<'a>(slice: &'a Slice, callsign: &Callsign) -> Option<&'a Vehicle>
    ensures held { (plan : List Area)
        → option_copied result ≡ held slice.now.division callsign.now
        (room_of plan slice.now.rows) }
    ensures there { IfSome result (λ v. vehicle_at callsign.now slice.now.rows ≡ Some v.now) }
{
    match slice.rows.vehicles.get(callsign) {
        Some(vehicle) if vehicle.holder == slice.division => Some(vehicle),
        _ => None,
    }
}

/// The vehicle's loan, where the division is its lender.
#[tactic(auto, unfolding(room_model::specs::Queries::lent))]
pub fn find_lent<'a>(slice: &'a Slice, callsign: &Callsign) -> Option<&'a Loan>
    ensures { (plan : List Area) → option_copied result ≡ lent slice.now.division callsign.now
        (room_of plan slice.now.rows) }
{
    match slice.rows.loans.get(callsign) {
        Some(loan) if loan.lender == slice.division => Some(loan),
        _ => None,
    }
}

fn not_held(slice: &Slice, callsign: &Callsign) -> Refusal
    ensures { (plan : List Area) → result ≡ not_held
        (lent slice.now.division callsign.now (room_of plan slice.now.rows)) }
{
    match find_lent(slice, callsign) {
        Some(_) => Refusal::VehicleLent,
        None => Refusal::NoSuchVehicle,
    }
}
