//! Incidents in their table.

ghost use Rattle.std.specs.Prelude.{◌≡◌, ◌==◌, ◌&&◌, filter, pos, int_le, int_lt, [], ◌∷◌};
ghost use Rattle.sqlite_value.specs.declared.value.Value.TheVariants.{Int};
ghost use Rattle.sqlite.specs.Held.{state};
ghost use Rattle.room_tables_schema.specs.TypedRows.{number};
ghost use Rattle.room_tables_schema.specs.Outcomes.{ReadsOnly};
ghost use Rattle.room_types.specs.Codes.{is_active, state_number};
ghost use Rattle.room_types.specs.declared.changes.Change.TheVariants as change;
ghost use Rattle.room_types.specs.declared.codes.State.TheVariants.{Active};
ghost use Rattle.room_types.specs.Keys.{pair_cmp, incident_key};
ghost use Rattle.room_tables_rows.specs.IncidentSql.{is_incident_row, incident_row};
ghost use Rattle.room_tables_schema.specs.Schema.{incidents_table};
ghost use Rattle.room_tables_schema.specs.FileConnections.{HasRoomSchema};
ghost use Rattle.room_tables_rows.specs.declared.incident_sql.TheConstants.{ACTIVE_INCIDENTS};
ghost use Rattle.room_tables_rows.specs.declared.incident_sql.TheConstants.{ALL_INCIDENTS};
ghost use Rattle.room_tables_rows.specs.declared.incident_sql.TheConstants.{INCIDENTS_OPENED};
ghost use Rattle.room_tables_rows.specs.declared.incident_sql.TheConstants.{INCIDENTS_SINCE};
ghost use Rattle.room_tables_rows.specs.declared.incident_sql.TheConstants.{INCIDENT_AT};
ghost use Rattle.room_tables_rows.specs.declared.incident_sql.TheConstants.{PUT_INCIDENT};
ghost use Rattle.room_tables_rows.proofs.IncidentsTable.{incidents_are};
ghost use Rattle.room_tables.specs.Failures.{AreNoRows, ExplainsWhy};
ghost use Rattle.room_tables.specs.FoundRows.{Finds};

use crate::loaded_rows::load;
use crate::room_table::{Statements, Table};
use room_place::plans::DivisionNumber;
use room_tables_rows::column_values::{Field, second};
use room_tables_rows::incident_sql::{
    ACTIVE_INCIDENTS, ALL_INCIDENTS, INCIDENT_AT, INCIDENTS_OPENED, INCIDENTS_SINCE, PUT_INCIDENT,
};
use room_tables_schema::database_faults::Fault;
use room_types::codes::State;
use room_types::rows::Rows;
use room_types::tables::Incident;
use sqlite::{Alter, Connection};
use std::alloc::Global;

impl Table for Incident {
    ghost table = { incidents_table };

    ghost rows = { λ room. room.incidents };

    ghost put = { change.PutIncident };

    ghost texts = { record {
      all = ALL_INCIDENTS.now;
      at = INCIDENT_AT.now;
      put = PUT_INCIDENT.now;
    } };

    ghost is_table = { incidents_are };

    fn statements() -> Statements {
        Statements {
            all: ALL_INCIDENTS,
            at: INCIDENT_AT,
            put: PUT_INCIDENT,
        }
    }
}

/// The active incidents of a division.
pub fn active_incidents<S: Alter>(
    alloc: Global,
    conn: &mut Connection<S>,
    division: DivisionNumber,
) -> Result<Rows<Incident>, Fault>
    requires room { HasRoomSchema S.Store conn.old }
    ensures rows { Finds S.Store conn.old conn.new result (λ room rows.
        rows ≡ filter (λ i. is_active i.state && i.division == division) room.incidents) }
    ensures reads { ReadsOnly S.Store conn.old conn.new result }
    ensures why { ExplainsWhy S.Store conn.old conn.new result ACTIVE_INCIDENTS.now
        (number (state_number Active) ∷ number division
        ∷ []) (AreNoRows is_incident_row pair_cmp incident_key incident_row) }
{
    let active = State::Active.number();
    load(
        alloc,
        conn,
        ACTIVE_INCIDENTS,
        &[active.store(), division.store()],
    )
}

/// The incidents of a division that were opened from a second of UTC since 1970 on and before
/// another.
pub fn incidents_opened<S: Alter>(
    alloc: Global,
    conn: &mut Connection<S>,
    from: i64,
    to: i64,
    division: DivisionNumber,
) -> Result<Rows<Incident>, Fault>
    requires room { HasRoomSchema S.Store conn.old }
    ensures rows { Finds S.Store conn.old conn.new result (λ room rows.
        rows ≡ filter (λ i. int_le from (pos i.opened) &&
        (int_lt (pos i.opened) to && i.division == division)) room.incidents) }
    ensures reads { ReadsOnly S.Store conn.old conn.new result }
    ensures why { ExplainsWhy S.Store conn.old conn.new result INCIDENTS_OPENED.now (Int from
        ∷ Int to ∷ number division
        ∷ []) (AreNoRows is_incident_row pair_cmp incident_key incident_row) }
{
    load(
        alloc,
        conn,
        INCIDENTS_OPENED,
        &[second(from), second(to), division.store()],
    )
}

/// The incidents that were opened from a second of UTC since 1970 on.
pub fn incidents_since<S: Alter>(
    alloc: Global,
    conn: &mut Connection<S>,
    from: i64,
) -> Result<Rows<Incident>, Fault>
    requires room { HasRoomSchema S.Store conn.old }
    ensures rows { Finds S.Store conn.old conn.new result (λ room rows.
        rows ≡ filter (λ i. int_le from (pos i.opened)) room.incidents) }
    ensures reads { ReadsOnly S.Store conn.old conn.new result }
    ensures why { ExplainsWhy S.Store conn.old conn.new result INCIDENTS_SINCE.now (Int from
        ∷ []) (AreNoRows is_incident_row pair_cmp incident_key incident_row) }
{
    load(alloc, conn, INCIDENTS_SINCE, &[second(from)])
}
