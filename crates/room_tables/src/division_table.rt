//! Divisions in their table.

ghost use Rattle.room_types.specs.declared.changes.Change.TheVariants as change;
ghost use Rattle.room_tables_schema.specs.Schema.{divisions_table};
ghost use Rattle.room_tables_rows.specs.declared.division_sql.TheConstants.{ALL_DIVISIONS};
ghost use Rattle.room_tables_rows.specs.declared.division_sql.TheConstants.{DIVISION_AT};
ghost use Rattle.room_tables_rows.specs.declared.division_sql.TheConstants.{PUT_DIVISION};
ghost use Rattle.room_tables_rows.proofs.DivisionsTable.{divisions_are};

use crate::room_table::{Statements, Table};
use room_tables_rows::division_sql::{ALL_DIVISIONS, DIVISION_AT, PUT_DIVISION};
use room_types::tables::Division;

impl Table for Division {
    ghost table = { divisions_table };

    ghost rows = { λ room. room.divisions };

    ghost put = { change.PutDivision };

    ghost texts = { record {
      all = ALL_DIVISIONS.now;
      at = DIVISION_AT.now;
      put = PUT_DIVISION.now;
    } };

    ghost is_table = { divisions_are };

    fn statements() -> Statements {
        Statements {
            all: ALL_DIVISIONS,
            at: DIVISION_AT,
            put: PUT_DIVISION,
        }
    }
}
