//! A day of a division, as it is looked for in a room.
ghost use Rattle.std.specs.List.{list_all};
ghost use Rattle.std.specs.Prelude.{◌≡◌, true};
ghost use Rattle.room_types.specs.Keys.{owns_incident};

use room_place::plans::DivisionNumber;
use room_types::rows::Rows;
use room_types::tables::Incident;

/// A day of a division, and the division's incidents in one room.
#[derive(Drop)]
pub struct DivisionDay {
    pub division: DivisionNumber,
    /// Seconds since 1970 in UTC: the first of the day.
    pub from: i64,
    /// The first second of the next day.
    pub to: i64,
    /// All that the division has, of this day or not.
    pub incidents: Rows<Incident>,
    pub ghost owned: { list_all (owns_incident division) incidents ≡ true },
}
