//! What the enrolment of a fleet row writes.
ghost use Rattle.std.specs.Prelude.{◌≡◌, false, OnOk};
ghost use Rattle.sqlite.specs.Held.{state};
ghost use Rattle.sqlite.specs.State.{Survives};
ghost use Rattle.room_tables_schema.specs.FileConnections.{HasRoomSchema, MayWrite, IsClean};
ghost use Rattle.room_tables_schema.specs.Outcomes.{CommitsNothing};
ghost use Rattle.room_types.specs.declared.fleet.RowFate.TheVariants as row_fate;
ghost use Rattle.room_model.specs.FleetRows.{new_terminal, new_vehicle, room_by};
ghost use Rattle.room_model.specs.Room.{Room};
ghost use Rattle.room_tables.specs.RoomsInTables.{Configuration, Stands};
ghost use Rattle.room_tables.specs.Writes.{Changes};
ghost use Rattle.room_store_writes.specs.Transactions.{LeavesOnErr, StandsSettled};
ghost use Rattle.room_store_writes.specs.EnrolledRows.{Enrols, StandsAfter, config_by};

use crate::transactions::end;
use room_tables::row_changes::put;
use room_tables::terminal_table::put_terminal;
use room_tables_schema::database_faults::Fault;
use room_types::asks::Who;
use room_types::codes::Status;
use room_types::fleet::{FleetRow, RowFate, Terminal};
use room_types::numbers::{LastNumber, Moment};
use room_types::tables::Vehicle;
use sqlite::{Alter, Connection, Transaction};

/// Writes what a row of this fate adds. What a stop may leave is what it could before, or the room
/// and the terminals after the row.
pub fn write<S: Alter>(conn: &mut Connection<S>, row: &FleetRow, fate: RowFate) -> Result<(), Fault>
    requires room { HasRoomSchema S.Store conn.old }
    requires outside { conn.old.in_transaction ≡ false }
    requires settled { StandsSettled S.Store conn.old }
    ensures ok { IsClean S.Store conn.new
        → OnOk result (Enrols (state S.Store conn.old) (state S.Store conn.new) row.now
        (Stands (state S.Store conn.old).now.trees) (λ _ _. fate)) }
    ensures err { LeavesOnErr S.Store conn.old conn.new result }
    ensures ended { conn.new.in_transaction ≡ false }
    ensures survives { Survives (state S.Store conn.old) (state S.Store conn.new) (λ db.
        (config : Configuration) (room : Room)
        → Stands (state S.Store conn.old).now.trees config room
        → StandsAfter fate row.now config room db) }
{
    match fate {
        RowFate::Added => write_row(conn, row),
        RowFate::Same | RowFate::Refused(_) => Ok(()),
    }
}

fn write_row<S: Alter>(conn: &mut Connection<S>, row: &FleetRow) -> Result<(), Fault>
    requires room { HasRoomSchema S.Store conn.old }
    requires outside { conn.old.in_transaction ≡ false }
    requires settled { StandsSettled S.Store conn.old }
    ensures ok { IsClean S.Store conn.new
        → OnOk result (Enrols (state S.Store conn.old) (state S.Store conn.new) row.now
        (Stands (state S.Store conn.old).now.trees) (λ _ _. row_fate.Added)) }
    ensures err { LeavesOnErr S.Store conn.old conn.new result }
    ensures ended { conn.new.in_transaction ≡ false }
    ensures survives { Survives (state S.Store conn.old) (state S.Store conn.new) (λ db.
        (config : Configuration) (room : Room)
        → Stands (state S.Store conn.old).now.trees config room
        → StandsAfter row_fate.Added row.now config room db) }
{
    let mut tx = conn.transaction();
    let done = put_row(&mut tx, row);
    end(tx, done)
}

// Puts a row's vehicle and its crew's terminal.
fn put_row<S: Alter>(tx: &mut Transaction<'_, S>, row: &FleetRow) -> Result<(), Fault>
    requires inside { MayWrite S.Store tx.old.conn.now }
    ensures same_reference { tx.new.conn.ghost_name ≡ tx.old.conn.ghost_name }
    ensures ok { IsClean S.Store tx.new.conn.now
        → OnOk result (Changes (state S.Store tx.old.conn.now) (state S.Store tx.new.conn.now)
        (config_by row_fate.Added row.now) (room_by row_fate.Added row.now)) }
    ensures commits { CommitsNothing S.Store tx.old.conn.now tx.new.conn.now }
{
    put(tx, &new_vehicle(row))?;
    put_terminal(tx, &new_terminal(row))
}

// A vehicle that is new is off duty at home, its shift is over, and it has used no numbers.
fn new_vehicle(row: &FleetRow) -> Vehicle
    ensures { result ≡ new_vehicle row.now }
{
    Vehicle {
        callsign: row.callsign,
        home: row.division,
        holder: row.division,
        kind: row.kind,
        place: row.place,
        status: Status::OffDuty,
        shift_end: Moment::of(0),
        post: None,
        last_order: LastNumber::of(0),
        last_report: LastNumber::of(0),
    }
}

fn new_terminal(row: &FleetRow) -> Terminal
    ensures { result ≡ new_terminal row.now }
{
    Terminal {
        token: row.token,
        who: Who::Crew(row.callsign),
    }
}
