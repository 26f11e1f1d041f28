//! Turns: their columns, how they are read, and the statements on them.

ghost use Rattle.room_tables_rows.specs.TurnSql.{is_turn_row, turn_row};
ghost use Rattle.room_tables_rows.specs.KeyColumns.{numbered_cells};

use crate::column_groups::values_of;
use crate::column_values::{Field, Stored};
use crate::stored_rows::{Columns, StoredRow};
use room_types::callsign::Callsign;
use room_types::numbers::Number;
use room_types::tables::Turn;
use sqlite::Row;

impl Stored for Turn {
    ghost cells = { turn_row };

    ghost is_row = { is_turn_row };

    fn read(row: &Row) -> Option<Turn> {
        let (callsign, (order, (division, (incident, (kind, times))))) = values_of(row, 12)?;
        let (ordered, (acknowledged, (scene, (left, (hospital, (ended, (stood_down, ()))))))) =
            times;
        Some(Turn {
            callsign,
            order,
            division,
            incident,
            kind,
            ordered,
            acknowledged,
            scene,
            left,
            hospital,
            ended,
            stood_down,
        })
    }
}

impl StoredRow for Turn {
    ghost key_cells = { numbered_cells };

    fn columns(&self) -> Columns<'_> {
        Columns::of(&[
            self.callsign.store(),
            self.order.store(),
            self.division.store(),
            self.incident.store(),
            self.kind.store(),
            self.ordered.store(),
            self.acknowledged.store(),
            self.scene.store(),
            self.left.store(),
            self.hospital.store(),
            self.ended.store(),
            self.stood_down.store(),
        ])
    }

    fn key_columns(key: &(Callsign, Number)) -> Columns<'_> {
        Columns::of(&[key.0.store(), key.1.store()])
    }
}

pub const ALL_TURNS: &str = "SELECT * FROM turns ORDER BY callsign, ord";

pub const TURN_AT: &str =
    "SELECT * FROM turns WHERE callsign = ?1 AND ord = ?2 ORDER BY callsign, ord";

pub const TURNS_OF: &str =
    "SELECT * FROM turns WHERE incident = ?1 AND division = ?2 ORDER BY callsign, ord";

pub const VEHICLE_TURNS: &str =
    "SELECT * FROM turns WHERE callsign = ?1 AND division = ?2 ORDER BY callsign, ord";

pub const INSERT_TURN: &str =
    "INSERT INTO turns VALUES (?1, ?2, ?3, ?4, ?5, ?6, ?7, ?8, ?9, ?10, ?11, ?12)";

pub const PUT_TURN: &str = "INSERT INTO turns VALUES (?1, ?2, ?3, ?4, ?5, ?6, ?7, ?8, ?9, ?10, \
    ?11, ?12) \
    ON CONFLICT (callsign, ord) \
    DO UPDATE SET callsign = excluded.callsign, ord = excluded.ord, \
    division = excluded.division, incident = excluded.incident, kind = excluded.kind, \
    ordered = excluded.ordered, acknowledged = excluded.acknowledged, scene = excluded.scene, \
    left_at = excluded.left_at, hospital = excluded.hospital, ended = excluded.ended, \
    stood_down = excluded.stood_down";

pub const OVERWRITE_TURN: &str = "UPDATE turns SET callsign = ?1, ord = ?2, division = ?3, \
    incident = ?4, kind = ?5, ordered = ?6, acknowledged = ?7, scene = ?8, left_at = ?9, \
    hospital = ?10, ended = ?11, stood_down = ?12 \
    WHERE callsign = ?1 AND ord = ?2";
