//! Reports in their table.

ghost use Rattle.std.specs.Prelude.{◌≡◌, false, ◌==◌, ◌&&◌, filter, not, [], ◌∷◌};
ghost use Rattle.room_tables_schema.specs.TypedRows.{number};
ghost use Rattle.sqlite_value.specs.declared.value.Value.TheVariants.{Text};
ghost use Rattle.room_tables_schema.specs.Outcomes.{ReadsOnly};
ghost use Rattle.room_types.specs.Codes.{outcome_number};
ghost use Rattle.room_types.specs.declared.changes.Change.TheVariants as change;
ghost use Rattle.room_types.specs.Keys.{numbered_cmp, report_key, same_callsign};
ghost use Rattle.room_tables_rows.specs.ColumnValues.{outcome_code, truth};
ghost use Rattle.room_tables_rows.specs.ReportSql.{is_report_row, report_row};
ghost use Rattle.room_tables_schema.specs.Schema.{reports_table};
ghost use Rattle.room_tables_schema.specs.FileConnections.{HasRoomSchema};
ghost use Rattle.room_tables_rows.specs.declared.report_sql.TheConstants.{ALL_REPORTS, PUT_REPORT};
ghost use Rattle.room_tables_rows.specs.declared.report_sql.TheConstants.{REPORTS_OF, REPORT_AT};
ghost use Rattle.room_tables_rows.specs.declared.report_sql.TheConstants.{UNCLEARED_REPORTS};
ghost use Rattle.room_tables_rows.proofs.ReportsTable.{reports_are};
ghost use Rattle.room_tables.specs.Failures.{AreNoRows, ExplainsWhy};
ghost use Rattle.room_tables.specs.FoundRows.{Finds};

use crate::loaded_rows::load;
use crate::room_table::{Statements, Table};
use room_place::plans::DivisionNumber;
use room_tables_rows::column_values::Field;
use room_tables_rows::report_sql::{
    ALL_REPORTS, PUT_REPORT, REPORT_AT, REPORTS_OF, UNCLEARED_REPORTS,
};
use room_tables_schema::database_faults::Fault;
use room_types::callsign::Callsign;
use room_types::codes::Outcome;
use room_types::rows::Rows;
use room_types::tables::Report;
use sqlite::{Alter, Connection};
use std::alloc::Global;

impl Table for Report {
    ghost table = { reports_table };

    ghost rows = { λ room. room.reports };

    ghost put = { change.PutReport };

    ghost texts = { record { all = ALL_REPORTS.now; at = REPORT_AT.now; put = PUT_REPORT.now } };

    ghost is_table = { reports_are };

    fn statements() -> Statements {
        Statements {
            all: ALL_REPORTS,
            at: REPORT_AT,
            put: PUT_REPORT,
        }
    }
}

/// The reports of a division with an outcome that are not cleared.
pub fn uncleared_reports<S: Alter>(
    alloc: Global,
    conn: &mut Connection<S>,
    outcome: Outcome,
    division: DivisionNumber,
) -> Result<Rows<Report>, Fault>
    requires room { HasRoomSchema S.Store conn.old }
    ensures rows { Finds S.Store conn.old conn.new result (λ room rows.
        rows ≡ filter (λ r. outcome_number r.outcome == outcome_number outcome &&
        (not r.cleared && r.division == division)) room.reports) }
    ensures reads { ReadsOnly S.Store conn.old conn.new result }
    ensures why { ExplainsWhy S.Store conn.old conn.new result UNCLEARED_REPORTS.now
        (outcome_code outcome ∷ truth false ∷ number division
        ∷ []) (AreNoRows is_report_row numbered_cmp report_key report_row) }
{
    let cleared = false;
    load(
        alloc,
        conn,
        UNCLEARED_REPORTS,
        &[outcome.store(), cleared.store(), division.store()],
    )
}

/// The reports of a vehicle that a division owns.
pub fn reports_of<S: Alter>(
    alloc: Global,
    conn: &mut Connection<S>,
    callsign: &Callsign,
    division: DivisionNumber,
) -> Result<Rows<Report>, Fault>
    requires room { HasRoomSchema S.Store conn.old }
    ensures rows { Finds S.Store conn.old conn.new result (λ room rows.
        rows ≡ filter (λ r. same_callsign callsign.now r.callsign && r.division == division)
        room.reports) }
    ensures reads { ReadsOnly S.Store conn.old conn.new result }
    ensures why { ExplainsWhy S.Store conn.old conn.new result REPORTS_OF.now
        (Text callsign.now ∷ number division
        ∷ []) (AreNoRows is_report_row numbered_cmp report_key report_row) }
{
    load(
        alloc,
        conn,
        REPORTS_OF,
        &[callsign.store(), division.store()],
    )
}
