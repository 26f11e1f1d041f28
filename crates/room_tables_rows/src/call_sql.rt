//! Calls: their columns, how they are read, and the statements on them.

ghost use Rattle.room_tables_rows.specs.CallSql.{is_call_row, call_row};
ghost use Rattle.room_tables_rows.specs.KeyColumns.{pair_cells};

use crate::column_groups::values_of;
use crate::column_values::{Field, Stored, integer};
use crate::stored_rows::{Columns, StoredRow};
use room_place::places::Place;
use room_types::needs::{Counts, Needs};
use room_types::numbers::{Number, PositionNumber};
use room_types::tables::Call;
use sqlite::Row;

impl Stored for Call {
    ghost cells = { call_row };

    ghost is_row = { is_call_row };

    fn read(row: &Row) -> Option<Call> {
        let (position, (serial, (division, (incident, (given, called))))) = values_of(row, 14)?;
        let (linked, (east, (north, (class, last_cells)))) = called;
        let (ambulances, (cars, (support, (note, (at, ()))))) = last_cells;
        let needs = Needs::new(Counts {
            ambulances,
            cars,
            support,
        })?;
        Some(Call {
            position,
            serial,
            division,
            incident,
            given,
            linked,
            place: Place { east, north },
            class,
            needs,
            note,
            at,
        })
    }
}

impl StoredRow for Call {
    ghost key_cells = { pair_cells };

    fn columns(&self) -> Columns<'_> {
        let counts = self.needs.counts();
        Columns::of(&[
            self.position.store(),
            self.serial.store(),
            self.division.store(),
            self.incident.store(),
            self.given.store(),
            self.linked.store(),
            self.place.east.store(),
            self.place.north.store(),
            self.class.store(),
            integer(counts.ambulances.get()),
            integer(counts.cars.get()),
            integer(counts.support.get()),
            self.note.store(),
            self.at.store(),
        ])
    }

    fn key_columns(key: &(PositionNumber, Number)) -> Columns<'_> {
        Columns::of(&[key.0.store(), key.1.store()])
    }
}

pub const ALL_CALLS: &str = "SELECT * FROM calls ORDER BY position, serial";

pub const CALL_AT: &str =
    "SELECT * FROM calls WHERE position = ?1 AND serial = ?2 ORDER BY position, serial";

pub const CALLS_OF: &str =
    "SELECT * FROM calls WHERE incident = ?1 AND division = ?2 ORDER BY position, serial";

pub const CALLS_BY: &str = "SELECT * FROM calls WHERE position = ?1 ORDER BY position, serial";

pub const INSERT_CALL: &str =
    "INSERT INTO calls VALUES (?1, ?2, ?3, ?4, ?5, ?6, ?7, ?8, ?9, ?10, ?11, ?12, ?13, ?14)";

pub const PUT_CALL: &str = "INSERT INTO calls VALUES (?1, ?2, ?3, ?4, ?5, ?6, ?7, ?8, ?9, ?10, \
    ?11, ?12, ?13, ?14) \
    ON CONFLICT (position, serial) \
    DO UPDATE SET position = excluded.position, serial = excluded.serial, \
    division = excluded.division, incident = excluded.incident, given = excluded.given, \
    linked = excluded.linked, east = excluded.east, north = excluded.north, \
    class = excluded.class, need1 = excluded.need1, need2 = excluded.need2, \
    need3 = excluded.need3, note = excluded.note, moment = excluded.moment";
