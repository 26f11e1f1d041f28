//! The rows of a vehicle that its crew's requests read beside what is known of the fleet.
ghost use Rattle.std.specs.Prelude.{◌≡◌, is_none};
ghost use Rattle.room_tables.specs.FoundRows.{Finds};
ghost use Rattle.room_tables_schema.specs.FileConnections.{HasRoomSchema, StandsOpen};
ghost use Rattle.room_tables_schema.specs.Outcomes.{ReadsOnly};
ghost use Rattle.room_types.specs.KeyedRows.{keep, row_at};
ghost use Rattle.room_model.specs.RoomSlices.{AreCrewRows};
ghost use Rattle.room_model.specs.RoomAgreements.{IsWellFormed};
ghost use Rattle.room_types.specs.Keys.{numbered_cmp, report_key};
ghost use Rattle.room_store_cache.specs.Cache.{HasFleetOf};
ghost use Rattle.room_store_cache.specs.OpenTurns.{AreTurnsOf};
ghost use Rattle.room_store_reads.specs.CrewParts.{HasVehicle, last_open_turn};

use room_store_cache::fleets::Fleet;
use room_tables::table_loads::row_at;
use room_tables_schema::database_faults::Fault;
use room_types::crews::CrewRows;
use room_types::numbers::Number;
use room_types::tables::{Report, Turn, Vehicle};
use sqlite::{Alter, Connection};

/// The rows of a known vehicle: beside its own its assignment, its open turn and its loan.
pub fn load_crew<S: Alter>(
    conn: &mut Connection<S>,
    fleet: &mut Fleet,
    vehicle: &Vehicle,
) -> Result<CrewRows, Fault>
    requires room { HasRoomSchema S.Store conn.old }
    requires open { StandsOpen S.Store conn.old }
    ensures rows { Finds S.Store conn.old conn.new result (λ room x. IsWellFormed room
        → HasFleetOf fleet.old room → HasVehicle vehicle.now room → (x.vehicle ≡ vehicle.now)
        × AreCrewRows vehicle.now.callsign room x) }
    ensures known { Finds S.Store conn.old conn.new result (λ room _. HasFleetOf fleet.old room
        → HasFleetOf fleet.new room) }
    ensures reads { ReadsOnly S.Store conn.old conn.new result }
{
    let turn = load_turn(conn, fleet, vehicle)?;
    let assignment = fleet.get().assignments.get(&vehicle.callsign).copied();
    let loan = fleet.get().loans.get(&vehicle.callsign).copied();
    Ok(CrewRows {
        vehicle: *vehicle,
        assignment,
        turn,
        loan,
    })
}

/// The vehicle's report of a number, where that isn't above its last: else it has none.
pub fn load_report<S: Alter>(
    conn: &mut Connection<S>,
    vehicle: &Vehicle,
    number: Number,
) -> Result<Option<Report>, Fault>
    requires room { HasRoomSchema S.Store conn.old }
    requires open { StandsOpen S.Store conn.old }
    ensures row { Finds S.Store conn.old conn.new result (λ room x. IsWellFormed room
        → HasVehicle vehicle.now room
        → row_at numbered_cmp report_key room.reports (vehicle.now.callsign, number) ≡ x) }
    ensures reads { ReadsOnly S.Store conn.old conn.new result }
{
    if vehicle.last_report.get() < number.get() {
        return Ok(None);
    }
    row_at::<Report, S>(conn, &(vehicle.callsign, number))
}

// The open turn of the vehicle's last order, where it is busy: else it has none.
fn load_turn<S: Alter>(
    conn: &mut Connection<S>,
    fleet: &mut Fleet,
    vehicle: &Vehicle,
) -> Result<Option<Turn>, Fault>
    requires room { HasRoomSchema S.Store conn.old }
    requires open { StandsOpen S.Store conn.old }
    ensures row { Finds S.Store conn.old conn.new result (λ room x. IsWellFormed room
        → AreTurnsOf fleet.old.turns.kept room → HasVehicle vehicle.now room
        → last_open_turn vehicle.now room ≡ x) }
    ensures known { Finds S.Store conn.old conn.new result (λ room _.
        AreTurnsOf fleet.old.turns.kept room → AreTurnsOf fleet.new.turns.kept room) }
    ensures rows { fleet.new.rows ≡ fleet.old.rows }
    ensures reads { ReadsOnly S.Store conn.old conn.new result }
{
    if !vehicle.status.is_busy() {
        return Ok(None);
    }
    let Some(order) = Number::new(vehicle.last_order.get()) else {
        return Ok(None);
    };
    let last = fleet.turn_at(conn, &(vehicle.callsign, order))?;
    Ok(not_ended(last))
}

fn not_ended(turn: Option<Turn>) -> Option<Turn>
    ensures { result ≡ keep (λ t. is_none t.ended) turn }
{
    match turn {
        Some(turn) if turn.ended.is_none() => Some(turn),
        _ => None,
    }
}
