//! Incidents: their columns, how they are read, and the statements on them.

ghost use Rattle.std.specs.Prelude.{◌≡◌};
ghost use Rattle.sqlite_value.specs.Value.{owned};
ghost use Rattle.room_tables_schema.specs.TypedRows.{number, number_or_null};
ghost use Rattle.room_types.specs.Codes.{state_number, merged_into};
ghost use Rattle.room_tables_rows.specs.IncidentSql.{is_incident_row, incident_row};
ghost use Rattle.room_tables_rows.specs.KeyColumns.{pair_cells};

use crate::column_groups::values_of;
use crate::column_values::{Field, Stored, integer};
use crate::stored_rows::{Columns, StoredRow};
use room_place::places::Place;
use room_place::plans::DivisionNumber;
use room_types::codes::State;
use room_types::needs::{Counts, Needs};
use room_types::numbers::Number;
use room_types::tables::Incident;
use sqlite::Row;
use sqlite_value::value::ValueRef;

impl Stored for Incident {
    ghost cells = { incident_row };

    ghost is_row = { is_incident_row };

    fn read(row: &Row) -> Option<Incident> {
        let (division, (number, (east, (north, (class, needed))))) = values_of(row, 12)?;
        let (ambulances, (cars, (support, (opened, (first_order, (state, (into, ()))))))) = needed;
        let needs = Needs::new(Counts {
            ambulances,
            cars,
            support,
        })?;
        let state = State::from_columns(state, into)?;
        Some(Incident {
            division,
            number,
            place: Place { east, north },
            class,
            needs,
            opened,
            first_order,
            state,
        })
    }
}

impl StoredRow for Incident {
    ghost key_cells = { pair_cells };

    fn columns(&self) -> Columns<'_> {
        let counts = self.needs.counts();
        Columns::of(&[
            self.division.store(),
            self.number.store(),
            self.place.east.store(),
            self.place.north.store(),
            self.class.store(),
            integer(counts.ambulances.get()),
            integer(counts.cars.get()),
            integer(counts.support.get()),
            self.opened.store(),
            self.first_order.store(),
            state_code(self.state),
            merged_code(self.state),
        ])
    }

    fn key_columns(key: &(DivisionNumber, Number)) -> Columns<'_> {
        Columns::of(&[key.0.store(), key.1.store()])
    }
}

// The number of a state.
fn state_code(state: State) -> ValueRef<'static>
    ensures { owned result ≡ number (state_number state) }
{
    integer(u32::from(state.number()))
}

// The incident that one of this state was merged into.
fn merged_code(state: State) -> ValueRef<'static>
    ensures { owned result ≡ number_or_null (merged_into state) }
{
    match state.merged_into() {
        Some(into) => integer(into.get()),
        None => ValueRef::Null,
    }
}

pub const ALL_INCIDENTS: &str = "SELECT * FROM incidents ORDER BY division, number";

pub const INCIDENT_AT: &str =
    "SELECT * FROM incidents WHERE division = ?1 AND number = ?2 ORDER BY division, number";

pub const ACTIVE_INCIDENTS: &str =
    "SELECT * FROM incidents WHERE state = ?1 AND division = ?2 ORDER BY division, number";

// The plus keeps the division's value, and the planner from the key, which would walk all incidents
// of the division: so they are found by their opening.
pub const INCIDENTS_OPENED: &str = "SELECT * FROM incidents \
    WHERE opened >= ?1 AND opened < ?2 AND +division = ?3 ORDER BY division, number";

pub const INCIDENTS_SINCE: &str =
    "SELECT * FROM incidents WHERE opened >= ?1 ORDER BY division, number";

pub const INSERT_INCIDENT: &str =
    "INSERT INTO incidents VALUES (?1, ?2, ?3, ?4, ?5, ?6, ?7, ?8, ?9, ?10, ?11, ?12)";

pub const PUT_INCIDENT: &str = "INSERT INTO incidents VALUES (?1, ?2, ?3, ?4, ?5, ?6, ?7, ?8, ?9, \
    ?10, ?11, ?12) \
    ON CONFLICT (division, number) \
    DO UPDATE SET division = excluded.division, number = excluded.number, \
    east = excluded.east, north = excluded.north, class = excluded.class, \
    need1 = excluded.need1, need2 = excluded.need2, need3 = excluded.need3, \
    opened = excluded.opened, first_order = excluded.first_order, state = excluded.state, \
    into_number = excluded.into_number";

pub const OVERWRITE_INCIDENT: &str = "UPDATE incidents SET division = ?1, number = ?2, \
    east = ?3, north = ?4, class = ?5, need1 = ?6, need2 = ?7, need3 = ?8, opened = ?9, \
    first_order = ?10, state = ?11, into_number = ?12 \
    WHERE division = ?1 AND number = ?2";
