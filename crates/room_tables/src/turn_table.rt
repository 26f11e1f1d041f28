//! Turns in their table.

ghost use Rattle.std.specs.Prelude.{◌≡◌, ◌==◌, ◌&&◌, filter, [], ◌∷◌};
ghost use Rattle.room_tables_schema.specs.TypedRows.{number};
ghost use Rattle.sqlite_value.specs.declared.value.Value.TheVariants.{Text};
ghost use Rattle.room_tables_schema.specs.Outcomes.{ReadsOnly};
ghost use Rattle.room_types.specs.declared.changes.Change.TheVariants as change;
ghost use Rattle.room_types.specs.Keys.{numbered_cmp, same_callsign, turn_key};
ghost use Rattle.room_tables_rows.specs.TurnSql.{is_turn_row, turn_row};
ghost use Rattle.room_tables_schema.specs.Schema.{turns_table};
ghost use Rattle.room_tables_schema.specs.FileConnections.{HasRoomSchema};
ghost use Rattle.room_tables_rows.specs.declared.turn_sql.TheConstants.{ALL_TURNS, PUT_TURN};
ghost use Rattle.room_tables_rows.specs.declared.turn_sql.TheConstants.{TURNS_OF, TURN_AT};
ghost use Rattle.room_tables_rows.specs.declared.turn_sql.TheConstants.{VEHICLE_TURNS};
ghost use Rattle.room_tables_rows.proofs.TurnsTable.{turns_are};
ghost use Rattle.room_tables.specs.Failures.{AreNoRows, ExplainsWhy};
ghost use Rattle.room_tables.specs.FoundRows.{Finds};

use crate::loaded_rows::load;
use crate::room_table::{Statements, Table};
use room_place::plans::DivisionNumber;
use room_tables_rows::column_values::Field;
use room_tables_rows::turn_sql::{ALL_TURNS, PUT_TURN, TURN_AT, TURNS_OF, VEHICLE_TURNS};
use room_tables_schema::database_faults::Fault;
use room_types::callsign::Callsign;
use room_types::numbers::Number;
use room_types::rows::Rows;
use room_types::tables::Turn;
use sqlite::{Alter, Connection};
use std::alloc::Global;

impl Table for Turn {
    ghost table = { turns_table };

    ghost rows = { λ room. room.turns };

    ghost put = { change.PutTurn };

    ghost texts = { record { all = ALL_TURNS.now; at = TURN_AT.now; put = PUT_TURN.now } };

    ghost is_table = { turns_are };

    fn statements() -> Statements {
        Statements {
            all: ALL_TURNS,
            at: TURN_AT,
            put: PUT_TURN,
        }
    }
}

/// The turns for an incident of a division.
pub fn turns_of<S: Alter>(
    alloc: Global,
    conn: &mut Connection<S>,
    division: DivisionNumber,
    incident: Number,
) -> Result<Rows<Turn>, Fault>
    requires room { HasRoomSchema S.Store conn.old }
    ensures rows { Finds S.Store conn.old conn.new result (λ room rows.
        rows ≡ filter (λ t. t.incident == incident && t.division == division) room.turns) }
    ensures reads { ReadsOnly S.Store conn.old conn.new result }
    ensures why { ExplainsWhy S.Store conn.old conn.new result TURNS_OF.now (number incident
        ∷ number division ∷ []) (AreNoRows is_turn_row numbered_cmp turn_key turn_row) }
{
    load(alloc, conn, TURNS_OF, &[incident.store(), division.store()])
}

/// The turns of a vehicle for the incidents of a division.
pub fn vehicle_turns<S: Alter>(
    alloc: Global,
    conn: &mut Connection<S>,
    division: DivisionNumber,
    callsign: &Callsign,
) -> Result<Rows<Turn>, Fault>
    requires room { HasRoomSchema S.Store conn.old }
    ensures rows { Finds S.Store conn.old conn.new result (λ room rows.
        rows ≡ filter (λ t. same_callsign callsign.now t.callsign && t.division == division)
        room.turns) }
    ensures reads { ReadsOnly S.Store conn.old conn.new result }
    ensures why { ExplainsWhy S.Store conn.old conn.new result VEHICLE_TURNS.now
        (Text callsign.now ∷ number division
        ∷ []) (AreNoRows is_turn_row numbered_cmp turn_key turn_row) }
{
    load(
        alloc,
        conn,
        VEHICLE_TURNS,
        &[callsign.store(), division.store()],
    )
}
