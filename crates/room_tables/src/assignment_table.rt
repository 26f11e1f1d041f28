//! Assignments in their table.

ghost use Rattle.room_types.specs.declared.changes.Change.TheVariants as change;
ghost use Rattle.room_tables_schema.specs.Schema.{assignments_table};
ghost use Rattle.room_tables_rows.specs.declared.assignment_sql.TheConstants.{ALL_ASSIGNMENTS};
ghost use Rattle.room_tables_rows.specs.declared.assignment_sql.TheConstants.{ASSIGNMENT_AT};
ghost use Rattle.room_tables_rows.specs.declared.assignment_sql.TheConstants.{PUT_ASSIGNMENT};
ghost use Rattle.room_tables_rows.proofs.AssignmentsTable.{assignments_are};

use crate::room_table::{Statements, Table};
use room_tables_rows::assignment_sql::{ALL_ASSIGNMENTS, ASSIGNMENT_AT, PUT_ASSIGNMENT};
use room_types::tables::Assignment;

impl Table for Assignment {
    ghost table = { assignments_table };

    ghost rows = { λ room. room.assignments };

    ghost put = { change.PutAssignment };

    ghost texts = { record {
      all = ALL_ASSIGNMENTS.now;
      at = ASSIGNMENT_AT.now;
      put = PUT_ASSIGNMENT.now;
    } };

    ghost is_table = { assignments_are };

    fn statements() -> Statements {
        Statements {
            all: ALL_ASSIGNMENTS,
            at: ASSIGNMENT_AT,
            put: PUT_ASSIGNMENT,
        }
    }
}
