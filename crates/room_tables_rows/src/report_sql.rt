//! Reports: their columns, how they are read, and the statements on them.

ghost use Rattle.room_tables_rows.specs.ReportSql.{is_report_row, report_row};
ghost use Rattle.room_tables_rows.specs.KeyColumns.{numbered_cells};

use crate::column_groups::values_of;
use crate::column_values::{Field, Stored};
use crate::stored_rows::{Columns, StoredRow};
use room_place::places::Place;
use room_types::callsign::Callsign;
use room_types::numbers::Number;
use room_types::tables::Report;
use sqlite::Row;

impl Stored for Report {
    ghost cells = { report_row };

    ghost is_row = { is_report_row };

    fn read(row: &Row) -> Option<Report> {
        let (callsign, (number, (button, (order, (east, (north, last_cells)))))) = values_of(
            row, 11,
        )?;
        let (at, (division, (outcome, (status, (cleared, ()))))) = last_cells;
        Some(Report {
            callsign,
            number,
            button,
            order,
            place: Place { east, north },
            at,
            division,
            outcome,
            status,
            cleared,
        })
    }
}

impl StoredRow for Report {
    ghost key_cells = { numbered_cells };

    fn columns(&self) -> Columns<'_> {
        Columns::of(&[
            self.callsign.store(),
            self.number.store(),
            self.button.store(),
            self.order.store(),
            self.place.east.store(),
            self.place.north.store(),
            self.at.store(),
            self.division.store(),
            self.outcome.store(),
            self.status.store(),
            self.cleared.store(),
        ])
    }

    fn key_columns(key: &(Callsign, Number)) -> Columns<'_> {
        Columns::of(&[key.0.store(), key.1.store()])
    }
}

pub const ALL_REPORTS: &str = "SELECT * FROM reports ORDER BY callsign, number";

pub const REPORT_AT: &str =
    "SELECT * FROM reports WHERE callsign = ?1 AND number = ?2 ORDER BY callsign, number";

pub const UNCLEARED_REPORTS: &str = "SELECT * FROM reports \
    WHERE outcome = ?1 AND cleared = ?2 AND division = ?3 ORDER BY callsign, number";

pub const REPORTS_OF: &str =
    "SELECT * FROM reports WHERE callsign = ?1 AND division = ?2 ORDER BY callsign, number";

pub const INSERT_REPORT: &str =
    "INSERT INTO reports VALUES (?1, ?2, ?3, ?4, ?5, ?6, ?7, ?8, ?9, ?10, ?11)";

pub const PUT_REPORT: &str = "INSERT INTO reports VALUES (?1, ?2, ?3, ?4, ?5, ?6, ?7, ?8, ?9, ?10, \
    ?11) \
    ON CONFLICT (callsign, number) \
    DO UPDATE SET callsign = excluded.callsign, number = excluded.number, \
    button = excluded.button, ord = excluded.ord, east = excluded.east, \
    north = excluded.north, moment = excluded.moment, division = excluded.division, \
    outcome = excluded.outcome, status = excluded.status, cleared = excluded.cleared";
