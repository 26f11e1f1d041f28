//! The rows of a division that a request reads: of the fleet those known, others from the tables.
ghost use Rattle.std.specs.Prelude.{◌≡◌, ◌&&◌, ◌==◌, ℕ, Bool, filter, IfOk};
ghost use Rattle.room_tables.specs.FoundRows.{Finds};
ghost use Rattle.room_tables_schema.specs.Outcomes.{ReadsOnly};
ghost use Rattle.room_types.specs.declared.asks.Ask.{Ask as AskModel};
ghost use Rattle.room_types.specs.declared.tables.Turn.{Turn};
ghost use Rattle.room_model.specs.Queries.{held};
ghost use Rattle.room_model.specs.Room.{IsInOrder, Room};
ghost use Rattle.room_model.specs.RoomSlices.{room_of};
ghost use Rattle.room_model.specs.WorkingRows.{is_last_turn, working};
ghost use Rattle.room_tables_schema.specs.FileConnections.{HasRoomSchema, StandsOpen};
ghost use Rattle.room_store_cache.specs.HistoryRows.{AreHistoryRows};
ghost use Rattle.room_store_cache.specs.Cache.{AreRowsOf};
ghost use Rattle.room_store_cache.specs.IncidentNumbers.{contains};
ghost use Rattle.room_store_reads.specs.KnownParts.{IsKnownPart};
ghost use Rattle.room_store_reads.specs.Partitions.{AreFleetParts, AreKnown, IsOfFleet, IsWork};
ghost use Rattle.room_store_reads.specs.Partitions.{is_turn};
ghost use Rattle.room_store_reads.specs.RequestReads.{AreCallsFor, Selects, is_read, is_report};
ghost use Rattle.room_store_reads.specs.RequestReads.{is_turn_of};

use crate::filled_views::fill_views;
use crate::incident_reads::{load_incidents, numbers_merged};
use crate::known_parts::{KnownPart, known_part};
use crate::partitions::load_parts;
use crate::request_reads::{Reads, Reports, Turns};
use crate::row_unions::add_all;
use crate::selections::{load_one, owned_row, part_of};
use room_place::plans::DivisionNumber;
use room_store_cache::cache::Cache;
use room_store_cache::cached_rows::own_rows;
use room_store_cache::fleets::FleetRows;
use room_store_cache::history_rows::HistoryRows;
use room_tables::report_table::reports_of;
use room_tables::turn_table::vehicle_turns;
use room_tables_schema::database_faults::Fault;
use room_types::callsign::Callsign;
use room_types::codes::Outcome;
use room_types::numbers::{Moment, Number};
use room_types::rows::{Part, Rows};
use room_types::slices::{DivisionRows, Slice};
use room_types::tables::{
    Assignment, Call, Division, Incident, Loan, Offer, Point, Report, Turn, Vehicle,
};
use sqlite::{Alter, Connection};
use std::alloc::Global;

/// What a request of a division at a moment reads beside the fleet: what its desk asks, or a call
/// that is placed in it. The next request knows what this one read of incidents.
pub fn load_history_rows<S: Alter>(
    alloc: Global,
    conn: &mut Connection<S>,
    division: DivisionNumber,
    reads: &Reads,
    at: Moment,
    cache: &mut Cache,
) -> Result<HistoryRows, Fault>
    requires room { HasRoomSchema S.Store conn.old }
    requires open { StandsOpen S.Store conn.old }
    ensures rows { Finds S.Store conn.old conn.new result (λ room x. (ask : AskModel)
        → IsInOrder room → AreKnown cache.old room → Selects division ask reads.now
        → AreHistoryRows division ask at room x × AreKnown cache.new room) }
    ensures fleet { cache.new.fleet ≡ cache.old.fleet }
    ensures reads { ReadsOnly S.Store conn.old conn.new result }
{
    if reads.is_of_fleet() {
        return Ok(no_rows(alloc));
    }
    let incidents = load_incidents(alloc, conn, division, &reads.incidents, at, cache)?;
    let work = load_work(alloc, conn, division, reads, cache, &incidents)?;
    let rows = HistoryRows {
        incidents,
        calls: work.calls,
        turns: work.turns,
        reports: work.reports,
    };
    fill_views(alloc, cache, division, reads, &rows);
    Ok(rows)
}

/// The rows of a division that a request reads, as a slice: of the fleet those that it reads, and
/// others beside them. A row of the fleet that is named is lent. Rows that don't agree are no
/// room's: that is `Storage`.
pub fn working_slice<'a>(
    alloc: Global,
    division: DivisionNumber,
    reads: &Reads,
    fleet: &'a FleetRows,
    beside: HistoryRows,
) -> Result<Slice<'a>, Fault>
    ensures division { IfOk result (λ x. x.division ≡ division) }
    ensures rows { IfOk result (λ x. (room : Room) (ask : AskModel) (at : ℕ) → IsInOrder room
        → AreRowsOf fleet.now room → Selects division ask reads.now
        → AreHistoryRows division ask at room beside
        → room_of room.plan x.rows ≡ working division ask at room) }
{
    let parts = fleet_parts(alloc, division, reads, fleet)?;
    let rows = DivisionRows {
        divisions: parts.divisions,
        incidents: beside.incidents,
        calls: beside.calls,
        vehicles: parts.vehicles,
        turns: beside.turns,
        assignments: parts.assignments,
        points: parts.points,
        loans: parts.loans,
        offers: parts.offers,
        reports: beside.reports,
    };
    match Slice::build(division, rows) {
        Some(slice) => Ok(slice),
        None => Err(Fault::Storage),
    }
}

// Of a division, the rows of the fleet that a request reads.
#[derive(Drop)]
struct FleetParts<'a> {
    divisions: Part<'a, Division>,
    vehicles: Part<'a, Vehicle>,
    assignments: Part<'a, Assignment>,
    points: Part<'a, Point>,
    loans: Part<'a, Loan>,
    offers: Part<'a, Offer>,
}

// Of a division, the rows of the fleet that a request reads. One that is named is lent.
fn fleet_parts<'a>(
    alloc: Global,
    division: DivisionNumber,
    reads: &Reads,
    fleet: &'a FleetRows,
) -> Result<FleetParts<'a>, Fault>
    ensures { IfOk result (λ x. (room : Room) (ask : AskModel) (at : ℕ) → IsInOrder room
        → AreRowsOf fleet.now room → Selects division ask reads.now
        → AreFleetParts division ask at room x) }
{
    Ok(FleetParts {
        divisions: part_of(alloc, &fleet.divisions, division, &reads.divisions)?,
        vehicles: part_of(alloc, &fleet.vehicles, division, &reads.vehicles)?,
        assignments: part_of(alloc, &fleet.assignments, division, &reads.assignments)?,
        points: part_of(alloc, &fleet.points, division, &reads.points)?,
        loans: part_of(alloc, &fleet.loans, division, &reads.loans)?,
        offers: part_of(alloc, &fleet.offers, division, &reads.offers)?,
    })
}

// No rows beside the fleet. It takes no memory.
fn no_rows(alloc: Global) -> HistoryRows
    ensures { IsOfFleet result }
{
    HistoryRows {
        incidents: Rows::new(alloc),
        calls: Rows::new(alloc),
        turns: Rows::new(alloc),
        reports: Rows::new(alloc),
    }
}

// The calls and turns of the incidents that a request reads, and the reports that it reads.
#[derive(Drop)]
struct Work {
    calls: Rows<Call>,
    turns: Rows<Turn>,
    reports: Rows<Report>,
}

// What a request reads beside the fleet and these incidents.
fn load_work<S: Alter>(
    alloc: Global,
    conn: &mut Connection<S>,
    division: DivisionNumber,
    reads: &Reads,
    known: &Cache,
    incidents: &Rows<Incident>,
) -> Result<Work, Fault>
    requires room { HasRoomSchema S.Store conn.old }
    requires open { StandsOpen S.Store conn.old }
    ensures rows { Finds S.Store conn.old conn.new result (λ room x. (ask : AskModel) (at : ℕ)
        → IsInOrder room → AreKnown known.now room → Selects division ask reads.now
        → incidents.now ≡ filter (λ i. i.division == division && is_read reads.now.incidents at i)
        room.incidents → IsWork division ask at room x) }
    ensures reads { ReadsOnly S.Store conn.old conn.new result }
{
    let part = known_part(alloc, division, reads, incidents, &known.shown_lists)?;
    load_missing(alloc, conn, division, reads, known, part)
}

// The calls and turns that aren't known, and the reports.
fn load_missing<S: Alter>(
    alloc: Global,
    conn: &mut Connection<S>,
    division: DivisionNumber,
    reads: &Reads,
    known: &Cache,
    part: KnownPart,
) -> Result<Work, Fault>
    requires room { HasRoomSchema S.Store conn.old }
    requires open { StandsOpen S.Store conn.old }
    ensures rows { Finds S.Store conn.old conn.new result (λ room x. (ask : AskModel) (at : ℕ)
        (is_known : ℕ → Bool) → IsInOrder room → AreKnown known.now room
        → Selects division ask reads.now
        → IsKnownPart division reads.now room is_known part → IsWork division ask at room x) }
    ensures reads { ReadsOnly S.Store conn.old conn.new result }
{
    let KnownPart {
        calls,
        turns,
        numbers,
    } = part;
    let of_calls = numbers_if(reads.calls, numbers.as_slice());
    let calls = load_parts::<Call, S>(alloc, conn, known, division, of_calls, calls)?;
    let mut turns = load_parts::<Turn, S>(alloc, conn, known, division, numbers.as_slice(), turns)?;
    let others = other_turns(alloc, conn, division, &reads.turns, known, &calls)?;
    add_all(&mut turns, &others)?;
    let reports = load_reports(alloc, conn, division, &reads.reports, known)?;
    Ok(Work {
        calls,
        turns,
        reports,
    })
}

// The turns that a request reads beside those of the incidents that are active or named, where
// these are the calls that it reads.
fn other_turns<S: Alter>(
    alloc: Global,
    conn: &mut Connection<S>,
    division: DivisionNumber,
    turns: &Turns,
    known: &Cache,
    calls: &Rows<Call>,
) -> Result<Rows<Turn>, Fault>
    requires room { HasRoomSchema S.Store conn.old }
    requires open { StandsOpen S.Store conn.old }
    ensures rows { Finds S.Store conn.old conn.new result (λ room x. IsInOrder room
        → AreKnown known.now room → AreCallsFor division turns.now room calls.now
        → x ≡ filter (λ t. t.division == division && is_turn_of division turns.now room t)
        room.turns) }
    ensures reads { ReadsOnly S.Store conn.old conn.new result }
{
    match *turns {
        Turns::Nothing => Ok(Rows::new(alloc)),
        Turns::Last(callsign) => last_turn(alloc, conn, division, known.fleet.get(), &callsign),
        Turns::Merged(number) => {
            let numbers = numbers_merged(alloc, number, calls)?;
            let none = Rows::new(alloc);
            load_parts::<Turn, S>(alloc, conn, known, division, numbers.as_slice(), none)
        }
        Turns::Of(callsign) => vehicle_turns(alloc, conn, division, &callsign),
    }
}

// All of some numbers, or none.
fn numbers_if(is_read: bool, numbers: &[Number]) -> &[Number]
    ensures { (n : ℕ) → contains n result.now ≡ is_read && contains n numbers.now }
{
    if is_read { numbers } else { &[] }
}

// The reports that wait to be cleared, the one that is named, or all of a vehicle.
fn load_reports<S: Alter>(
    alloc: Global,
    conn: &mut Connection<S>,
    division: DivisionNumber,
    reports: &Reports,
    known: &Cache,
) -> Result<Rows<Report>, Fault>
    requires room { HasRoomSchema S.Store conn.old }
    requires open { StandsOpen S.Store conn.old }
    ensures rows { Finds S.Store conn.old conn.new result (λ room x. IsInOrder room
        → AreKnown known.now room
        → x ≡ filter (λ y. y.division == division && is_report reports.now y) room.reports) }
    ensures reads { ReadsOnly S.Store conn.old conn.new result }
{
    match reports {
        Reports::Nothing => Ok(Rows::new(alloc)),
        Reports::Uncleared => match known.queue_views.get(&division) {
            Some(queue_view) => own_rows(alloc, &queue_view.exceptions, division),
            None => {
                let none = Rows::new(alloc);
                load_parts::<Report, S>(alloc, conn, known, division, &EXCEPTIONS, none)
            }
        },
        Reports::One(named) => load_one::<Report, S>(alloc, conn, division, named),
        Reports::Of(callsign) => reports_of(alloc, conn, callsign, division),
    }
}

// The outcomes of the reports that wait to be cleared.
const EXCEPTIONS: [Outcome; 4] = [
    Outcome::Skipped,
    Outcome::Wrong,
    Outcome::Late,
    Outcome::Stale,
];

// The turn of a held vehicle's last order.
fn last_turn<S: Alter>(
    alloc: Global,
    conn: &mut Connection<S>,
    division: DivisionNumber,
    fleet: &FleetRows,
    callsign: &Callsign,
) -> Result<Rows<Turn>, Fault>
    requires room { HasRoomSchema S.Store conn.old }
    requires open { StandsOpen S.Store conn.old }
    ensures rows { Finds S.Store conn.old conn.new result (λ room x. IsInOrder room
        → AreRowsOf fleet.now room → x ≡ filter (λ t. t.division == division &&
        is_last_turn (held division callsign.now room) t) room.turns) }
    ensures reads { ReadsOnly S.Store conn.old conn.new result }
{
    let vehicle = fleet.vehicles.get(callsign).copied();
    match last_key(owned_row(vehicle, division)) {
        Some(key) => load_one::<Turn, S>(alloc, conn, division, &key),
        None => Ok(Rows::new(alloc)),
    }
}

/// The key of that turn, where the vehicle is there and had an order.
pub(crate) fn last_key(vehicle: Option<Vehicle>) -> Option<(Callsign, Number)>
    ensures { (t : Turn) → is_last_turn vehicle t ≡ is_turn result t }
{
    let vehicle = vehicle?;
    let order = Number::new(vehicle.last_order.get())?;
    Some((vehicle.callsign, order))
}
