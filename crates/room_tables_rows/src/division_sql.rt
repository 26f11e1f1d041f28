//! Divisions: their columns, how they are read, and the statements on them.

ghost use Rattle.room_tables_rows.specs.DivisionSql.{is_division_row, division_row};
ghost use Rattle.room_tables_rows.specs.KeyColumns.{number_cells};

use crate::column_groups::values_of;
use crate::column_values::{Field, Stored};
use crate::stored_rows::{Columns, StoredRow};
use room_place::plans::DivisionNumber;
use room_types::tables::Division;
use sqlite::Row;

impl Stored for Division {
    ghost cells = { division_row };

    ghost is_row = { is_division_row };

    fn read(row: &Row) -> Option<Division> {
        let (number, (last_incident, ())) = values_of(row, 2)?;
        Some(Division {
            number,
            last_incident,
        })
    }
}

impl StoredRow for Division {
    ghost key_cells = { number_cells };

    fn columns(&self) -> Columns<'_> {
        Columns::of(&[self.number.store(), self.last_incident.store()])
    }

    fn key_columns(key: &DivisionNumber) -> Columns<'_> {
        Columns::of(&[key.store()])
    }
}

pub const ALL_DIVISIONS: &str = "SELECT * FROM divisions ORDER BY number";

pub const DIVISION_AT: &str = "SELECT * FROM divisions WHERE number = ?1 ORDER BY number";

pub const PUT_DIVISION: &str = "INSERT INTO divisions VALUES (?1, ?2) ON CONFLICT (number) \
    DO UPDATE SET number = excluded.number, last_incident = excluded.last_incident";
