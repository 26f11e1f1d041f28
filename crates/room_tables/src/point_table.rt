//! Standby points in their table.

ghost use Rattle.room_types.specs.declared.changes.Change.TheVariants as change;
ghost use Rattle.room_tables_schema.specs.Schema.{points_table};
ghost use Rattle.room_tables_rows.specs.declared.point_sql.TheConstants.{ALL_POINTS, POINT_AT};
ghost use Rattle.room_tables_rows.specs.declared.point_sql.TheConstants.{PUT_POINT};
ghost use Rattle.room_tables_rows.proofs.PointsTable.{points_are};

use crate::room_table::{Statements, Table};
use room_tables_rows::point_sql::{ALL_POINTS, POINT_AT, PUT_POINT};
use room_types::tables::Point;

impl Table for Point {
    ghost table = { points_table };

    ghost rows = { λ room. room.points };

    ghost put = { change.PutPoint };

    ghost texts = { record { all = ALL_POINTS.now; at = POINT_AT.now; put = PUT_POINT.now } };

    ghost is_table = { points_are };

    fn statements() -> Statements {
        Statements {
            all: ALL_POINTS,
            at: POINT_AT,
            put: PUT_POINT,
        }
    }
}
