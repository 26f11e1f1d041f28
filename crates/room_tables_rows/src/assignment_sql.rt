//! Assignments: their columns, how they are read, and the statements on them.

ghost use Rattle.room_tables_rows.specs.AssignmentSql.{is_assignment_row, assignment_row};
ghost use Rattle.room_tables_rows.specs.KeyColumns.{text_cells};

use crate::column_groups::values_of;
use crate::column_values::{Field, Stored};
use crate::stored_rows::{Columns, StoredRow};
use room_place::places::Place;
use room_types::callsign::Callsign;
use room_types::tables::Assignment;
use sqlite::Row;

impl Stored for Assignment {
    ghost cells = { assignment_row };

    ghost is_row = { is_assignment_row };

    fn read(row: &Row) -> Option<Assignment> {
        let (callsign, (division, (incident, (order, last_cells)))) = values_of(row, 7)?;
        let (east, (north, (class, ()))) = last_cells;
        Some(Assignment {
            callsign,
            division,
            incident,
            order,
            place: Place { east, north },
            class,
        })
    }
}

impl StoredRow for Assignment {
    ghost key_cells = { text_cells };

    fn columns(&self) -> Columns<'_> {
        Columns::of(&[
            self.callsign.store(),
            self.division.store(),
            self.incident.store(),
            self.order.store(),
            self.place.east.store(),
            self.place.north.store(),
            self.class.store(),
        ])
    }

    fn key_columns(key: &Callsign) -> Columns<'_> {
        Columns::of(&[key.store()])
    }
}

pub const ALL_ASSIGNMENTS: &str = "SELECT * FROM assignments ORDER BY callsign";

pub const ASSIGNMENT_AT: &str = "SELECT * FROM assignments WHERE callsign = ?1 ORDER BY callsign";

pub const INSERT_ASSIGNMENT: &str = "INSERT INTO assignments VALUES (?1, ?2, ?3, ?4, ?5, ?6, ?7)";

pub const PUT_ASSIGNMENT: &str = "INSERT INTO assignments VALUES (?1, ?2, ?3, ?4, ?5, ?6, ?7) \
    ON CONFLICT (callsign) \
    DO UPDATE SET callsign = excluded.callsign, division = excluded.division, \
    incident = excluded.incident, ord = excluded.ord, east = excluded.east, \
    north = excluded.north, class = excluded.class";

pub const DROP_ASSIGNMENT: &str = "DELETE FROM assignments WHERE callsign = ?1";
