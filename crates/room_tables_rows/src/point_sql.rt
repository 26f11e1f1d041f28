//! Points: their columns, how they are read, and the statements on them.

ghost use Rattle.room_tables_rows.specs.PointSql.{is_point_row, point_row};
ghost use Rattle.room_tables_rows.specs.KeyColumns.{pair_cells};

use crate::column_groups::values_of;
use crate::column_values::{Field, Stored};
use crate::stored_rows::{Columns, StoredRow};
use room_place::places::Place;
use room_place::plans::DivisionNumber;
use room_types::numbers::PointNumber;
use room_types::tables::Point;
use sqlite::Row;

impl Stored for Point {
    ghost cells = { point_row };

    ghost is_row = { is_point_row };

    fn read(row: &Row) -> Option<Point> {
        let (division, (number, (east, (north, (cover, ()))))) = values_of(row, 5)?;
        Some(Point {
            division,
            number,
            place: Place { east, north },
            cover,
        })
    }
}

impl StoredRow for Point {
    ghost key_cells = { pair_cells };

    fn columns(&self) -> Columns<'_> {
        Columns::of(&[
            self.division.store(),
            self.number.store(),
            self.place.east.store(),
            self.place.north.store(),
            self.cover.store(),
        ])
    }

    fn key_columns(key: &(DivisionNumber, PointNumber)) -> Columns<'_> {
        Columns::of(&[key.0.store(), key.1.store()])
    }
}

pub const ALL_POINTS: &str = "SELECT * FROM points ORDER BY division, number";

pub const POINT_AT: &str =
    "SELECT * FROM points WHERE division = ?1 AND number = ?2 ORDER BY division, number";

pub const PUT_POINT: &str = "INSERT INTO points VALUES (?1, ?2, ?3, ?4, ?5) \
    ON CONFLICT (division, number) \
    DO UPDATE SET division = excluded.division, number = excluded.number, \
    east = excluded.east, north = excluded.north, cover = excluded.cover";
