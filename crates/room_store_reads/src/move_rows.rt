//! What moves read: before the first is made, what all of them ask for; then of what is known, what
//! each of them asks for.
ghost use Rattle.std.specs.Prelude.{◌≡◌, ◌&&◌, ◌==◌, Some, filter, true, ℕ, IfOk};
ghost use Rattle.room_tables.specs.FoundRows.{Finds};
ghost use Rattle.room_tables_schema.specs.FileConnections.{HasRoomSchema, StandsOpen};
ghost use Rattle.room_tables_schema.specs.Outcomes.{ReadsOnly};
ghost use Rattle.room_types.specs.Codes.{is_mobilised};
ghost use Rattle.room_types.specs.declared.tables.Vehicle.{Vehicle as VehicleModel};
ghost use Rattle.room_model.specs.Moves.{HasMove};
ghost use Rattle.room_model.specs.Queries.{held};
ghost use Rattle.room_model.specs.Room.{IsInOrder, Room};
ghost use Rattle.room_model.specs.RoomAgreements.{IsWellFormed};
ghost use Rattle.room_model.specs.RoomSlices.{room_of};
ghost use Rattle.room_model.specs.WorkingRows.{is_last_turn};
ghost use Rattle.room_store_cache.specs.Cache.{HasFleetOf, IsCacheOf};
ghost use Rattle.room_store_cache.specs.OpenTurns.{AreTurnsOf};
ghost use Rattle.room_store_reads.specs.MoveParts.{HasBeside, HasIncident, IsFilled};

use crate::request_reads::reads_of;
use crate::row_unions::listed;
use crate::selections::owned_row;
use crate::working_rows::{last_key, load_history_rows};
use room_place::plans::DivisionNumber;
use room_store_cache::cache::Cache;
use room_store_cache::cached_rows::own_rows;
use room_store_cache::fleets::Fleet;
use room_tables_schema::database_faults::Fault;
use room_types::asks::{Ask, Move, Moves};
use room_types::callsign::Callsign;
use room_types::numbers::{Moment, Number};
use room_types::rows::{Part, Rows};
use room_types::slices::DivisionRows;
use room_types::tables::{Incident, Turn, Vehicle};
use sqlite::{Alter, Connection};
use std::alloc::Global;

/// Reads what moves ask for: the fleet, the last turns of vehicles, and incidents with their turns.
/// What memory is refused for isn't known.
pub fn learn_moves<S: Alter>(
    alloc: Global,
    conn: &mut Connection<S>,
    division: DivisionNumber,
    moves: &Moves,
    at: Moment,
    known: &mut Cache,
) -> Result<(), Fault>
    requires room { HasRoomSchema S.Store conn.old }
    requires open { StandsOpen S.Store conn.old }
    ensures known { Finds S.Store conn.old conn.new result (λ room _. IsWellFormed room
        → IsCacheOf known.old room → IsFilled known.new room) }
    ensures reads { ReadsOnly S.Store conn.old conn.new result }
{
    known.fleet.fill(alloc, conn)?;
    learn_one(alloc, conn, division, &moves.first, at, known)?;
    for other in &moves.others {
        learn_if(alloc, conn, division, other, at, known)?;
    }
    Ok(())
}

// Reads what a move asks for beside the fleet, where there is one.
fn learn_if<S: Alter>(
    alloc: Global,
    conn: &mut Connection<S>,
    division: DivisionNumber,
    next: &Option<Move>,
    at: Moment,
    known: &mut Cache,
) -> Result<(), Fault>
    requires room { HasRoomSchema S.Store conn.old }
    requires open { StandsOpen S.Store conn.old }
    ensures known { Finds S.Store conn.old conn.new result (λ room _. IsWellFormed room
        → IsFilled known.old room → IsFilled known.new room) }
    ensures reads { ReadsOnly S.Store conn.old conn.new result }
{
    match next {
        Some(next) => learn_one(alloc, conn, division, next, at, known),
        None => Ok(()),
    }
}

// Reads what one move asks for beside the fleet.
fn learn_one<S: Alter>(
    alloc: Global,
    conn: &mut Connection<S>,
    division: DivisionNumber,
    next: &Move,
    at: Moment,
    known: &mut Cache,
) -> Result<(), Fault>
    requires room { HasRoomSchema S.Store conn.old }
    requires open { StandsOpen S.Store conn.old }
    ensures known { Finds S.Store conn.old conn.new result (λ room _. IsWellFormed room
        → IsFilled known.old room → IsFilled known.new room) }
    ensures reads { ReadsOnly S.Store conn.old conn.new result }
{
    match next.incident {
        Some(number) => {
            let reads = reads_of(division, &Ask::Close(number));
            let _ = load_history_rows(alloc, conn, division, &reads, at, known)?;
            Ok(())
        }
        None => learn_turn(conn, &next.callsign, &mut known.fleet),
    }
}

// Reads the turn of a vehicle's last order, where it is there and had one.
fn learn_turn<S: Alter>(
    conn: &mut Connection<S>,
    callsign: &Callsign,
    fleet: &mut Fleet,
) -> Result<(), Fault>
    requires room { HasRoomSchema S.Store conn.old }
    requires open { StandsOpen S.Store conn.old }
    ensures known { Finds S.Store conn.old conn.new result (λ room _. HasFleetOf fleet.old room
        → HasFleetOf fleet.new room) }
    ensures reads { ReadsOnly S.Store conn.old conn.new result }
{
    let vehicle = fleet.get().vehicles.get(callsign).copied();
    if let Some(key) = last_key(vehicle) {
        let _ = fleet.turn_at(conn, &key)?;
    }
    Ok(())
}

/// The rows that a move asks for, of what is known: its vehicle and its loan, and its incident with
/// the turns, or the vehicle's open turn. Where they aren't known, memory was refused for them.
pub fn rows_known<'a>(
    alloc: Global,
    division: DivisionNumber,
    known: &'a Cache,
    next: &Move,
) -> Result<DivisionRows<'a>, Fault>
    ensures { IfOk result (λ rows. (room : Room) → IsWellFormed room → IsCacheOf known.now room
        → HasMove division next.now (room_of room.plan rows) room) }
{
    if !known.fleet.is_known() {
        return Err(Fault::Memory);
    }
    let beside = beside_known(alloc, division, known, next)?;
    let fleet = known.fleet.get();
    Ok(DivisionRows {
        divisions: Part::none(),
        incidents: beside.incidents,
        calls: Rows::new(alloc),
        vehicles: fleet.vehicles.lend(division, &next.callsign),
        turns: beside.turns,
        assignments: Part::none(),
        points: Part::none(),
        loans: fleet.loans.lend(division, &next.callsign),
        offers: Part::none(),
        reports: Rows::new(alloc),
    })
}

// What a move asks for beside the fleet.
#[derive(Drop)]
struct Beside {
    incidents: Rows<Incident>,
    turns: Rows<Turn>,
}

// What a move asks for beside the fleet, of what is known.
fn beside_known(
    alloc: Global,
    division: DivisionNumber,
    known: &Cache,
    next: &Move,
) -> Result<Beside, Fault>
    ensures { IfOk result (λ x. (room : Room) → IsInOrder room → HasFleetOf known.now.fleet room
        → IsCacheOf known.now room → HasBeside division next.now room x) }
{
    match next.incident {
        Some(number) => incident_known(alloc, division, known, number),
        None => {
            let turns = turn_known(alloc, division, &known.fleet, &next.callsign)?;
            Ok(Beside {
                incidents: Rows::new(alloc),
                turns,
            })
        }
    }
}

// The incident of a number, with its turns.
fn incident_known(
    alloc: Global,
    division: DivisionNumber,
    known: &Cache,
    number: Number,
) -> Result<Beside, Fault>
    ensures { IfOk result (λ x. (room : Room) → IsCacheOf known.now room
        → HasIncident division number room x) }
{
    match known.incident_views.get(&(division, number)) {
        Some(view) => Ok(Beside {
            incidents: listed(alloc, view.incident)?,
            turns: own_rows(alloc, &view.turns, division)?,
        }),
        None => Err(Fault::Memory),
    }
}

// The turn of a vehicle that is on its way: of another it is not asked for.
fn turn_known(
    alloc: Global,
    division: DivisionNumber,
    fleet: &Fleet,
    callsign: &Callsign,
) -> Result<Rows<Turn>, Fault>
    ensures { IfOk result (λ x. (room : Room) (v : VehicleModel) → IsInOrder room
        → HasFleetOf fleet.now room → held division callsign.now room ≡ Some v
        → is_mobilised v.status ≡ true → x ≡ filter (λ t. t.division == division &&
        is_last_turn (Some v) t) room.turns) }
{
    let vehicle = fleet.get().vehicles.get(callsign).copied();
    match owned_row(vehicle, division) {
        Some(vehicle) => last_known(alloc, division, fleet, vehicle),
        None => Ok(Rows::new(alloc)),
    }
}

// The turn of a vehicle's last order, where it is on its way.
fn last_known(
    alloc: Global,
    division: DivisionNumber,
    fleet: &Fleet,
    vehicle: Vehicle,
) -> Result<Rows<Turn>, Fault>
    ensures { IfOk result (λ x. (room : Room) → IsInOrder room
        → AreTurnsOf fleet.now.turns.kept room → is_mobilised vehicle.status ≡ true
        → x ≡ filter (λ t. t.division == division && is_last_turn (Some vehicle) t) room.turns) }
{
    if !vehicle.status.is_mobilised() {
        return Ok(Rows::new(alloc));
    }
    let Some(key) = last_key(Some(vehicle)) else {
        return Ok(Rows::new(alloc));
    };
    match fleet.known_turn(&key) {
        Some(turn) => listed(alloc, owned_row(Some(turn), division)),
        None => Err(Fault::Memory),
    }
}
