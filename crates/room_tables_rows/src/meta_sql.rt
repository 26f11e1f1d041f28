//! The version and the zone: their columns, how they are read, and the statements on them.

ghost use Rattle.std.specs.Prelude.{◌≡◌, ◌↔◌, is_some, IfSome, IsTrue};
ghost use Rattle.sqlite.specs.Values.{bound};
ghost use Rattle.sqlite_value.specs.Order.{column};
ghost use Rattle.room_tables_schema.specs.TypedRows.{number};
ghost use Rattle.room_tables_rows.specs.MetaSql.{is_meta_row, meta_row, version_row};

use crate::column_values::{column_at, integer, text, value_at};
use sqlite::Row;
use sqlite_value::value::ValueRef;

/// The version of these tables.
pub const VERSION: u32 = 2;

/// The version before, which had no table `offers`.
pub const FIRST_VERSION: u32 = 1;

/// Whether a row of `meta` gives this version.
pub fn has_version(row: &Row, version: u32) -> bool
    ensures { IsTrue result ↔ (column row.now 1 ≡ number version) }
{
    match column_at(row, 1) {
        ValueRef::Int(found_version) => found_version == i64::from(version),
        _ => false,
    }
}

/// The zone that the one row of `meta` gives; none where it is none of this version.
pub fn zone_of(row: &Row, version: u32) -> Option<&str>
    ensures zone { IfSome result (λ zone. version_row version zone.now ≡ row.now) }
    ensures has_one { is_some result ≡ is_meta_row version row.now }
{
    if row.column_count() != 3 {
        return None;
    }
    let id: u32 = value_at(row, 0)?;
    let found_version: u32 = value_at(row, 1)?;
    if id != 1 || found_version != version {
        return None;
    }
    text(column_at(row, 2))
}

/// The columns of the one row of `meta`.
pub fn meta_columns(zone: &str) -> [ValueRef<'_>; 3]
    ensures { bound result ≡ meta_row zone.now }
{
    [
        integer(1),
        integer(VERSION),
        ValueRef::Text(zone.as_bytes()),
    ]
}

pub const ALL_META: &str = "SELECT * FROM meta ORDER BY id";

pub const PUT_META: &str = "INSERT INTO meta VALUES (?1, ?2, ?3) ON CONFLICT (id) \
    DO UPDATE SET id = excluded.id, version = excluded.version, zone = excluded.zone";
