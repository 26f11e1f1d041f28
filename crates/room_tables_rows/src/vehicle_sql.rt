//! Vehicles: their columns, how they are read, and the statements on them.

ghost use Rattle.room_tables_rows.specs.VehicleSql.{is_vehicle_row, vehicle_row};
ghost use Rattle.room_tables_rows.specs.KeyColumns.{text_cells};

use crate::column_groups::values_of;
use crate::column_values::{Field, Stored};
use crate::stored_rows::{Columns, StoredRow};
use room_place::places::Place;
use room_types::callsign::Callsign;
use room_types::tables::Vehicle;
use sqlite::Row;

impl Stored for Vehicle {
    ghost cells = { vehicle_row };

    ghost is_row = { is_vehicle_row };

    fn read(row: &Row) -> Option<Vehicle> {
        let (callsign, (home, (holder, (kind, (east, (north, duty)))))) = values_of(row, 11)?;
        let (status, (shift_end, (post, (last_order, (last_report, ()))))) = duty;
        Some(Vehicle {
            callsign,
            home,
            holder,
            kind,
            place: Place { east, north },
            status,
            shift_end,
            post,
            last_order,
            last_report,
        })
    }
}

impl StoredRow for Vehicle {
    ghost key_cells = { text_cells };

    fn columns(&self) -> Columns<'_> {
        Columns::of(&[
            self.callsign.store(),
            self.home.store(),
            self.holder.store(),
            self.kind.store(),
            self.place.east.store(),
            self.place.north.store(),
            self.status.store(),
            self.shift_end.store(),
            self.post.store(),
            self.last_order.store(),
            self.last_report.store(),
        ])
    }

    fn key_columns(key: &Callsign) -> Columns<'_> {
        Columns::of(&[key.store()])
    }
}

pub const ALL_VEHICLES: &str = "SELECT * FROM vehicles ORDER BY callsign";

pub const VEHICLE_AT: &str = "SELECT * FROM vehicles WHERE callsign = ?1 ORDER BY callsign";

pub const PUT_VEHICLE: &str = "INSERT INTO vehicles VALUES (?1, ?2, ?3, ?4, ?5, ?6, ?7, ?8, ?9, \
    ?10, ?11) \
    ON CONFLICT (callsign) \
    DO UPDATE SET callsign = excluded.callsign, home = excluded.home, \
    holder = excluded.holder, kind = excluded.kind, east = excluded.east, \
    north = excluded.north, status = excluded.status, shift_end = excluded.shift_end, \
    post = excluded.post, last_order = excluded.last_order, last_report = excluded.last_report";

pub const OVERWRITE_VEHICLE: &str = "UPDATE vehicles SET callsign = ?1, home = ?2, \
    holder = ?3, kind = ?4, east = ?5, north = ?6, status = ?7, shift_end = ?8, post = ?9, \
    last_order = ?10, last_report = ?11 \
    WHERE callsign = ?1";
