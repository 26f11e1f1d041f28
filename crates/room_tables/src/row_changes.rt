//! Changes of the room's rows, each inside a transaction.

ghost use Rattle.std.specs.Prelude.{◌≡◌, OnOk};
ghost use Rattle.sqlite.specs.Held.{state};
ghost use Rattle.sqlite.specs.Values.{bound};
ghost use Rattle.room_tables.specs.Failures.{ExplainsWhyUnwritten};
ghost use Rattle.room_tables.specs.ChangeStatements.{AreInsertions, AreStatements, IsWritePlan};
ghost use Rattle.room_tables_schema.specs.FileConnections.{MayWrite, IsClean};
ghost use Rattle.room_tables_schema.specs.Outcomes.{CommitsNothing, WritesInside};
ghost use Rattle.room_types.specs.declared.changes.Change.{Change as ChangeModel};
ghost use Rattle.room_types.specs.declared.changes.Change.TheVariants.{Settle};
ghost use Rattle.room_tables_rows.specs.Writes.{Makes};

use self::WritePlan::{Inserting, Overwriting, Settling, Statement};
use crate::loaded_rows::row_of;
use crate::room_table::Table;
use crate::statement_runs::run;
use room_place::plans::DivisionNumber;
use room_tables_rows::assignment_sql::{DROP_ASSIGNMENT, INSERT_ASSIGNMENT, PUT_ASSIGNMENT};
use room_tables_rows::call_sql::{INSERT_CALL, PUT_CALL};
use room_tables_rows::division_sql::PUT_DIVISION;
use room_tables_rows::incident_sql::{INSERT_INCIDENT, OVERWRITE_INCIDENT, PUT_INCIDENT};
use room_tables_rows::loan_sql::{DROP_LOAN, PUT_LOAN};
use room_tables_rows::offer_sql::{DROP_OFFER, PUT_OFFER};
use room_tables_rows::point_sql::PUT_POINT;
use room_tables_rows::report_sql::{INSERT_REPORT, PUT_REPORT};
use room_tables_rows::stored_rows::{Columns, StoredRow};
use room_tables_rows::turn_sql::{INSERT_TURN, OVERWRITE_TURN, PUT_TURN};
use room_tables_rows::vehicle_sql::{OVERWRITE_VEHICLE, PUT_VEHICLE, VEHICLE_AT};
use room_tables_schema::database_faults::Fault;
use room_tables_schema::queries::select_inside;
use room_tables_schema::statements::{insert, write};
use room_types::callsign::Callsign;
use room_types::changes::Change;
use room_types::codes::Status;
use room_types::tables::{Assignment, Loan, Offer, Vehicle};
use sqlite::{Alter, Transaction};
use sqlite_value::value::ValueRef;

/// Puts a row in its key's place.
pub fn put<X: Table, S: Alter>(tx: &mut Transaction<'_, S>, row: &X) -> Result<(), Fault>
    requires inside { MayWrite S.Store tx.old.conn.now }
    ensures ok { IsClean S.Store tx.new.conn.now
        → OnOk result (Makes (state S.Store tx.old.conn.now) (state S.Store tx.new.conn.now)
        (X.put row.now)) }
    ensures writes { WritesInside S.Store tx.old.conn.now tx.new.conn.now result }
    ensures why { ExplainsWhyUnwritten S.Store tx.old.conn.now tx.new.conn.now result X.texts.put
        (X.cells row.now) }
    ensures same_reference { tx.new.conn.ghost_name ≡ tx.old.conn.ghost_name }
{
    run(tx, X::statements().put, row.columns().as_slice())
}

/// Gives a vehicle, where it is there, this holder and makes it available. Of a failure of storage
/// no cause is known.
pub fn settle<S: Alter>(
    tx: &mut Transaction<'_, S>,
    callsign: &Callsign,
    division: DivisionNumber,
) -> Result<(), Fault>
    requires inside { MayWrite S.Store tx.old.conn.now }
    ensures ok { IsClean S.Store tx.new.conn.now
        → OnOk result (Makes (state S.Store tx.old.conn.now) (state S.Store tx.new.conn.now)
        (Settle callsign.now division)) }
    ensures writes { WritesInside S.Store tx.old.conn.now tx.new.conn.now result }
    ensures same_reference { tx.new.conn.ghost_name ≡ tx.old.conn.ghost_name }
{
    let shown = select_inside(tx, VEHICLE_AT, Vehicle::key_columns(callsign).as_slice())?;
    let Some(vehicle) = row_of::<Vehicle>(shown.as_slice())? else {
        return Ok(());
    };
    let available = Vehicle {
        holder: division,
        status: Status::Available,
        ..vehicle
    };
    run(tx, PUT_VEHICLE, available.columns().as_slice())
}

// How a change is made: by a statement with these values; by one that inserts a row, or writes it
// over, or by the next, where that puts none; or by settling a vehicle.
enum WritePlan<'a> {
    Statement(&'static str, Columns<'a>),
    Inserting(&'static str, &'static str, Columns<'a>),
    Overwriting(&'static str, &'static str, Columns<'a>),
    Settling(&'a Callsign, DivisionNumber),
}

// How to make a change. An incident that nobody was sent to, and a turn that nobody acknowledged,
// are mostly new.
fn write_plan_of(change: &Change) -> WritePlan<'_>
    ensures { IsWritePlan result change.now }
{
    match change {
        Change::PutDivision(row) => Statement(PUT_DIVISION, row.columns()),
        Change::PutIncident(row) if row.first_order.is_none() => {
            Inserting(INSERT_INCIDENT, PUT_INCIDENT, row.columns())
        }
        Change::PutIncident(row) => Overwriting(OVERWRITE_INCIDENT, PUT_INCIDENT, row.columns()),
        Change::PutCall(row) => Inserting(INSERT_CALL, PUT_CALL, row.columns()),
        Change::PutVehicle(row) => Overwriting(OVERWRITE_VEHICLE, PUT_VEHICLE, row.columns()),
        Change::PutTurn(row) if row.acknowledged.is_none() => {
            Inserting(INSERT_TURN, PUT_TURN, row.columns())
        }
        Change::PutTurn(row) => Overwriting(OVERWRITE_TURN, PUT_TURN, row.columns()),
        Change::PutAssignment(row) => Inserting(INSERT_ASSIGNMENT, PUT_ASSIGNMENT, row.columns()),
        Change::PutPoint(row) => Statement(PUT_POINT, row.columns()),
        Change::PutLoan(row) => Statement(PUT_LOAN, row.columns()),
        Change::PutOffer(row) => Statement(PUT_OFFER, row.columns()),
        Change::PutReport(row) => Inserting(INSERT_REPORT, PUT_REPORT, row.columns()),
        Change::DropAssignment(key) => Statement(DROP_ASSIGNMENT, Assignment::key_columns(key)),
        Change::DropLoan(key) => Statement(DROP_LOAN, Loan::key_columns(key)),
        Change::DropOffer(key) => Statement(DROP_OFFER, Offer::key_columns(key)),
        Change::Settle(callsign, division) => Settling(callsign, *division),
    }
}

// Inserts a row, or puts it, where another has its key. A row that may be new mostly is, and an
// insertion costs two thirds of an upsert.
fn insert_or_put<S: Alter>(
    tx: &mut Transaction<'_, S>,
    insertion: &str,
    put: &str,
    values: &[ValueRef<'_>],
) -> Result<(), Fault>
    requires inside { MayWrite S.Store tx.old.conn.now }
    requires statements { (made : ChangeModel)
        × AreInsertions insertion.now put.now (bound values.now) made }
    ensures ok { IsClean S.Store tx.new.conn.now
        → OnOk result ((made : ChangeModel)
        → AreInsertions insertion.now put.now (bound values.now) made
        → Makes (state S.Store tx.old.conn.now) (state S.Store tx.new.conn.now) made) }
    ensures commits { CommitsNothing S.Store tx.old.conn.now tx.new.conn.now }
    ensures same_reference { tx.new.conn.ghost_name ≡ tx.old.conn.ghost_name }
{
    if insert(tx, insertion, values)? {
        return Ok(());
    }
    run(tx, put, values)
}

// Writes a row over the one with its key, or puts it, where none has that. A row that changes is
// nearly always there, and an update costs two thirds of an upsert.
fn overwrite<S: Alter>(
    tx: &mut Transaction<'_, S>,
    over: &str,
    put: &str,
    values: &[ValueRef<'_>],
) -> Result<(), Fault>
    requires inside { MayWrite S.Store tx.old.conn.now }
    requires statements { (made : ChangeModel)
        × AreStatements over.now put.now (bound values.now) made }
    ensures ok { IsClean S.Store tx.new.conn.now
        → OnOk result ((made : ChangeModel) → AreStatements over.now put.now (bound values.now) made
        → Makes (state S.Store tx.old.conn.now) (state S.Store tx.new.conn.now) made) }
    ensures commits { CommitsNothing S.Store tx.old.conn.now tx.new.conn.now }
    ensures same_reference { tx.new.conn.ghost_name ≡ tx.old.conn.ghost_name }
{
    if write(tx, over, values)? == 0 {
        return run(tx, put, values);
    }
    Ok(())
}

/// Applies one change of the room's rows. An UPDATE that finds no row leaves another count of
/// changed rows than before, so a failure after it isn't as if nothing had been called: who calls
/// it undoes the transaction. Of a failure of storage no cause is known.
pub fn apply<S: Alter>(tx: &mut Transaction<'_, S>, change: &Change) -> Result<(), Fault>
    requires inside { MayWrite S.Store tx.old.conn.now }
    ensures ok { IsClean S.Store tx.new.conn.now
        → OnOk result (Makes (state S.Store tx.old.conn.now)
        (state S.Store tx.new.conn.now) change.now) }
    ensures commits { CommitsNothing S.Store tx.old.conn.now tx.new.conn.now }
    ensures same_reference { tx.new.conn.ghost_name ≡ tx.old.conn.ghost_name }
{
    match write_plan_of(change) {
        Statement(text, values) => run(tx, text, values.as_slice()),
        Inserting(insertion, put, values) => insert_or_put(tx, insertion, put, values.as_slice()),
        Overwriting(over, put, values) => overwrite(tx, over, put, values.as_slice()),
        Settling(callsign, division) => settle(tx, callsign, division),
    }
}
