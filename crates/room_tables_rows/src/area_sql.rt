//! Areas: their columns, how they are read, and the statements on them.

ghost use Rattle.std.specs.Prelude.{◌≡◌};
ghost use Rattle.sqlite.specs.Values.{bound};
ghost use Rattle.room_tables_rows.specs.AreaSql.{is_area_row, area_row};

use crate::column_groups::values_of;
use crate::column_values::{Stored, integer};
use room_place::plans::{Area, Rect};
use sqlite::Row;
use sqlite_value::value::ValueRef;

impl Stored for (u32, Area) {
    ghost cells = { area_row };

    ghost is_row = { is_area_row };

    fn read(row: &Row) -> Option<(u32, Area)> {
        let (at, (division, (west, (south, (east, (north, ())))))) = values_of(row, 6)?;
        let rect = Rect {
            west,
            south,
            east,
            north,
        };
        Some((at, Area { division, rect }))
    }
}

/// The columns of the area at a place of the plan.
pub fn area_columns(at: u32, area: &Area) -> [ValueRef<'static>; 6]
    ensures { bound result ≡ area_row (at, area.now) }
{
    [
        integer(at),
        integer(area.division),
        integer(area.rect.west),
        integer(area.rect.south),
        integer(area.rect.east),
        integer(area.rect.north),
    ]
}

pub const ALL_AREAS: &str = "SELECT * FROM areas ORDER BY n";

pub const PUT_AREA: &str = "INSERT INTO areas VALUES (?1, ?2, ?3, ?4, ?5, ?6) ON CONFLICT (n) \
    DO UPDATE SET n = excluded.n, division = excluded.division, west = excluded.west, \
    south = excluded.south, east = excluded.east, north = excluded.north";
