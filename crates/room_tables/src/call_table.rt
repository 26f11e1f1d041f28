//! Calls in their table.

ghost use Rattle.std.specs.Prelude.{◌≡◌, ◌==◌, ◌&&◌, filter, max, [], ◌∷◌};
ghost use Rattle.room_tables_schema.specs.TypedRows.{number};
ghost use Rattle.room_tables_schema.specs.Outcomes.{ReadsOnly};
ghost use Rattle.room_types.specs.declared.changes.Change.TheVariants as change;
ghost use Rattle.room_types.specs.Keys.{pair_cmp, call_key};
ghost use Rattle.room_model.specs.Queries.{greatest_serial, last_serial};
ghost use Rattle.room_tables_rows.specs.CallSql.{is_call_row, call_row};
ghost use Rattle.room_tables_schema.specs.Schema.{calls_table};
ghost use Rattle.room_tables_schema.specs.FileConnections.{HasRoomSchema};
ghost use Rattle.room_tables_rows.specs.declared.call_sql.TheConstants.{ALL_CALLS, CALLS_BY};
ghost use Rattle.room_tables_rows.specs.declared.call_sql.TheConstants.{CALLS_OF, CALL_AT};
ghost use Rattle.room_tables_rows.specs.declared.call_sql.TheConstants.{PUT_CALL};
ghost use Rattle.room_tables_rows.proofs.CallsTable.{calls_are};
ghost use Rattle.room_tables.specs.Failures.{AreNoRows, ExplainsWhy};
ghost use Rattle.room_tables.specs.FoundRows.{Finds};

use crate::loaded_rows::load;
use crate::room_table::{Statements, Table};
use crate::row_streams::{TypedRowSink, each_shown};
use room_place::plans::DivisionNumber;
use room_tables_rows::call_sql::{ALL_CALLS, CALL_AT, CALLS_BY, CALLS_OF, PUT_CALL};
use room_tables_rows::column_values::Field;
use room_tables_schema::database_faults::Fault;
use room_types::numbers::{LastNumber, Number, PositionNumber};
use room_types::rows::Rows;
use room_types::tables::Call;
use sqlite::{Alter, Connection};
use std::alloc::Global;

impl Table for Call {
    ghost table = { calls_table };

    ghost rows = { λ room. room.calls };

    ghost put = { change.PutCall };

    ghost texts = { record { all = ALL_CALLS.now; at = CALL_AT.now; put = PUT_CALL.now } };

    ghost is_table = { calls_are };

    fn statements() -> Statements {
        Statements {
            all: ALL_CALLS,
            at: CALL_AT,
            put: PUT_CALL,
        }
    }
}

/// The calls of an incident of a division.
pub fn calls_of<S: Alter>(
    alloc: Global,
    conn: &mut Connection<S>,
    division: DivisionNumber,
    incident: Number,
) -> Result<Rows<Call>, Fault>
    requires room { HasRoomSchema S.Store conn.old }
    ensures rows { Finds S.Store conn.old conn.new result (λ room rows.
        rows ≡ filter (λ c. c.incident == incident && c.division == division) room.calls) }
    ensures reads { ReadsOnly S.Store conn.old conn.new result }
    ensures why { ExplainsWhy S.Store conn.old conn.new result CALLS_OF.now (number incident
        ∷ number division ∷ []) (AreNoRows is_call_row pair_cmp call_key call_row) }
{
    load(alloc, conn, CALLS_OF, &[incident.store(), division.store()])
}

/// The greatest serial of a position's calls, 0 where it has none. They are read one at a time.
pub fn last_serial<S: Alter>(
    conn: &mut Connection<S>,
    position: PositionNumber,
) -> Result<LastNumber, Fault>
    requires room { HasRoomSchema S.Store conn.old }
    ensures serial { Finds S.Store conn.old conn.new result (λ room serial.
        serial ≡ last_serial position room) }
    ensures reads { ReadsOnly S.Store conn.old conn.new result }
    ensures why { ExplainsWhy S.Store conn.old conn.new result CALLS_BY.now (number position
        ∷ []) (AreNoRows is_call_row pair_cmp call_key call_row) }
{
    let none = LastSerial {
        serial: LastNumber::of(0),
    };
    match each_shown(conn, CALLS_BY, &[position.store()], none) {
        Ok(last) => Ok(last.serial),
        Err(fault) => Err(fault),
    }
}

// What keeps the greatest serial of the calls that it takes.
#[derive(Drop)]
struct LastSerial {
    serial: LastNumber,
}

impl TypedRowSink for LastSerial {
    type Row = Call;

    ghost takes = { λ first calls now. first.serial ≡ 0 → now.serial ≡ greatest_serial calls };

    fn take(&mut self, row: Call) -> Result<(), Fault> {
        self.serial = greater(self.serial, &row);
        Ok(())
    }

    ghost begins = { λ x none. none };
}

// The greater of a serial and a call's.
fn greater(serial: LastNumber, call: &Call) -> LastNumber
    ensures { result ≡ max serial call.now.serial }
{
    serial.max(LastNumber::of(call.serial.get()))
}
