//! The rows of the tables that don't grow with time, and open turns of the fleet's vehicles.
ghost use Rattle.std.specs.Prelude.{◌≡◌, None, Some, false, IfErr, IfSome, IsTrue, OnOk};
ghost use Rattle.room_tables.specs.FoundRows.{Finds};
ghost use Rattle.room_tables_schema.specs.FileConnections.{HasRoomSchema, StandsOpen};
ghost use Rattle.room_tables_schema.specs.declared.database_faults.Fault.TheVariants.{Memory};
ghost use Rattle.room_tables_schema.specs.Outcomes.{ReadsOnly};
ghost use Rattle.room_types.specs.KeyedRows.{row_at};
ghost use Rattle.room_types.specs.Keys.{callsign_cmp, numbered_cmp, turn_key, vehicle_key};
ghost use Rattle.room_model.specs.Room.{Room, apply_one, settled};
ghost use Rattle.room_store_cache.specs.Cache.{AreRowsOf, HasFleetOf, IsFleetOf};
ghost use Rattle.room_store_cache.specs.OpenTurns.{AreTurnsOf};

use crate::cached_rows::put;
use crate::open_turns::Turns;
use crate::views::View;
use room_place::plans::DivisionNumber;
use room_tables::room_table::Table;
use room_tables::row_streams::each_row;
use room_tables::table_loads::row_at;
use room_tables_schema::database_faults::Fault;
use room_types::callsign::Callsign;
use room_types::changes::Change;
use room_types::codes::Status;
use room_types::numbers::Number;
use room_types::rows::Rows;
use room_types::tables::{Assignment, Division, Loan, Offer, Point, Turn, Vehicle};
use sqlite::{Alter, Connection};
use std::alloc::Global;

/// A list of rows of each table that doesn't grow with time: what stands of the plan's divisions
/// and of the fleet.
#[derive(Drop)]
pub struct FleetRows {
    pub divisions: Rows<Division>,
    pub vehicles: Rows<Vehicle>,
    pub assignments: Rows<Assignment>,
    pub points: Rows<Point>,
    pub loans: Rows<Loan>,
    pub offers: Rows<Offer>,
}

/// All rows of these tables, as the room has them, and open turns of it; or nothing is known.
#[derive(Drop)]
pub struct Fleet {
    is_known: bool,
    rows: FleetRows,
    turns: Turns,
}

impl Fleet {
    /// Nothing is known yet.
    pub fn new(alloc: Global) -> Fleet
        ensures { result.is_known ≡ false }
    {
        Fleet {
            is_known: false,
            rows: no_rows(alloc),
            turns: Turns::new(alloc),
        }
    }

    /// The rows that are known.
    pub fn get(&self) -> &FleetRows
        ensures { result.now ≡ self.now.rows }
    {
        &self.rows
    }

    /// Whether it is known.
    pub fn is_known(&self) -> bool
        ensures { result ≡ self.now.is_known }
    {
        self.is_known
    }

    /// The open turn of a vehicle's order, if it is known.
    pub fn known_turn(&self, key: &(Callsign, Number)) -> Option<Turn>
        ensures { (room : Room) → AreTurnsOf self.now.turns.kept room → IfSome result (λ t.
            (row_at numbered_cmp turn_key room.turns key.now ≡ Some t) × (t.ended ≡ None)) }
    {
        self.turns.get(key)
    }

    /// Reads the tables, where nothing is known. A refusal is of memory or of storage.
    pub fn fill<S: Alter>(&mut self, alloc: Global, conn: &mut Connection<S>) -> Result<(), Fault>
        requires room { HasRoomSchema S.Store conn.old }
        requires open { IsTrue self.old.is_known → StandsOpen S.Store conn.old }
        ensures known { Finds S.Store conn.old conn.new result (λ room _. IsFleetOf self.old room
            → HasFleetOf self.new room) }
        ensures reads { ReadsOnly S.Store conn.old conn.new result }
    {
        if self.is_known {
            return Ok(());
        }
        self.rows.read(alloc, conn)?;
        self.turns = Turns::new(alloc);
        self.is_known = true;
        Ok(())
    }

    /// The turn of a vehicle's order; none where it has none. One that is not known is read.
    pub fn turn_at<S: Alter>(
        &mut self,
        conn: &mut Connection<S>,
        key: &(Callsign, Number),
    ) -> Result<Option<Turn>, Fault>
        requires room { HasRoomSchema S.Store conn.old }
        requires open { StandsOpen S.Store conn.old }
        ensures turn { Finds S.Store conn.old conn.new result (λ room turn.
            AreTurnsOf self.old.turns.kept room
            → turn ≡ row_at numbered_cmp turn_key room.turns key.now) }
        ensures known { Finds S.Store conn.old conn.new result (λ room _.
            AreTurnsOf self.old.turns.kept room → AreTurnsOf self.new.turns.kept room) }
        ensures rows { self.new.rows ≡ self.old.rows }
        ensures is_known { self.new.is_known ≡ self.old.is_known }
        ensures reads { ReadsOnly S.Store conn.old conn.new result }
    {
        if let Some(turn) = self.turns.get(key) {
            return Ok(Some(turn));
        }
        let Some(turn) = row_at::<Turn, S>(conn, key)? else {
            return Ok(None);
        };
        self.turns.fill(&turn);
        Ok(Some(turn))
    }
}

impl View for Fleet {
    ghost is_so = { IsFleetOf };

    ghost is_empty = { λ fleet. fleet.is_known ≡ false };

    fn apply(&mut self, change: &Change) {
        if !self.is_known {
            return;
        }
        self.turns.apply(change);
        self.is_known = self.rows.apply(change).is_ok();
    }

    fn forget(&mut self) {
        self.is_known = false;
    }
}

impl FleetRows {
    // Reads the tables. A fault is of memory or of storage.
    fn read<S: Alter>(&mut self, alloc: Global, conn: &mut Connection<S>) -> Result<(), Fault>
        requires room { HasRoomSchema S.Store conn.old }
        ensures rows { Finds S.Store conn.old conn.new result (λ room _.
            AreRowsOf self.new room) }
        ensures reads { ReadsOnly S.Store conn.old conn.new result }
    {
        read_all(alloc, conn, &mut self.divisions)?;
        read_all(alloc, conn, &mut self.vehicles)?;
        read_all(alloc, conn, &mut self.assignments)?;
        read_all(alloc, conn, &mut self.points)?;
        read_all(alloc, conn, &mut self.loans)?;
        read_all(alloc, conn, &mut self.offers)
    }

    /// Makes a change, where it is of one of these tables. The one fault is `Memory`.
    fn apply(&mut self, change: &Change) -> Result<(), Fault>
        ensures rows { OnOk result ((room : Room) → AreRowsOf self.old room
            → AreRowsOf self.new (apply_one room change.now)) }
        ensures memory { IfErr result (λ e. e ≡ Memory) }
    {
        match change {
            Change::PutDivision(row) => put(&mut self.divisions, row),
            Change::PutVehicle(row) => put(&mut self.vehicles, row),
            Change::PutAssignment(row) => put(&mut self.assignments, row),
            Change::PutPoint(row) => put(&mut self.points, row),
            Change::PutLoan(row) => put(&mut self.loans, row),
            Change::PutOffer(row) => put(&mut self.offers, row),
            Change::DropAssignment(key) => {
                let _ = self.assignments.take(key);
                Ok(())
            }
            Change::DropLoan(key) => {
                let _ = self.loans.take(key);
                Ok(())
            }
            Change::DropOffer(key) => {
                let _ = self.offers.take(key);
                Ok(())
            }
            Change::Settle(callsign, division) => settle(&mut self.vehicles, callsign, *division),
            Change::PutIncident(_)
            | Change::PutCall(_)
            | Change::PutTurn(_)
            | Change::PutReport(_) => Ok(()),
        }
    }
}

/// No rows yet.
pub fn no_rows(alloc: Global) -> FleetRows {
    FleetRows {
        divisions: Rows::new(alloc),
        vehicles: Rows::new(alloc),
        assignments: Rows::new(alloc),
        points: Rows::new(alloc),
        loans: Rows::new(alloc),
        offers: Rows::new(alloc),
    }
}

// Reads all rows of a table, in place of those that are there.
fn read_all<X: Table, S: Alter>(
    alloc: Global,
    conn: &mut Connection<S>,
    rows: &mut Rows<X>,
) -> Result<(), Fault>
    requires room { HasRoomSchema S.Store conn.old }
    ensures rows { Finds S.Store conn.old conn.new result (λ room _. rows.new ≡ X.rows room) }
    ensures reads { ReadsOnly S.Store conn.old conn.new result }
{
    *rows = each_row::<Rows<X>, S>(conn, Rows::new(alloc))?;
    Ok(())
}

// Gives a vehicle, where it is there, this holder and makes it available. The one fault is
// `Memory`.
fn settle(
    vehicles: &mut Rows<Vehicle>,
    callsign: &Callsign,
    division: DivisionNumber,
) -> Result<(), Fault>
    ensures settled { OnOk result (vehicles.new ≡ settled (row_at callsign_cmp vehicle_key
        vehicles.old callsign.now) division vehicles.old) }
    ensures memory { IfErr result (λ e. e ≡ Memory) }
{
    let Some(vehicle) = vehicles.get(callsign) else {
        return Ok(());
    };
    let settled = Vehicle {
        holder: division,
        status: Status::Available,
        ..*vehicle
    };
    put(vehicles, &settled)
}
