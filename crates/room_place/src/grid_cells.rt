//! Cells of one square kilometre, and the rings of them round a cell.
ghost use Rattle.std.specs.Prelude.{◌≡◌, ◌≤◌};
ghost use Rattle.room_place.specs.Places.{cell_of as cell_at, ring_of as ring_between};
ghost use Rattle.room_place.specs.Places.{ring_floor as floor_of, distance, IsInSquares};
ghost use Rattle.room_place.specs.declared.places.Place.{Place};

use crate::places::Place;

/// A square of one kilometre, by its whole kilometres of easting and northing.
#[derive(Clone, Copy, PartialEq, Eq)]
pub struct Cell {
    /// 400 to 599 for the cell of a place.
    pub x: u16,
    /// 100 to 299 for the cell of a place.
    pub y: u16,
}

const CELL_METRES: u32 = 1000;

/// The cell that a place lies in.
pub fn cell_of(place: Place) -> Cell
    ensures { result ≡ cell_at place }
{
    Cell {
        x: (place.east.get() / CELL_METRES) as u16,
        y: (place.north.get() / CELL_METRES) as u16,
    }
}

/// How many rings of cells one cell lies away from another: the greater of the two differences.
/// Between cells of places it is at most 199, and no two places in them are nearer to each other
/// than the ring's floor.
pub fn ring_of(one: Cell, other: Cell) -> u32
    ensures value { result ≡ ring_between one other }
    ensures within { (a b : Place) → IsInSquares a → IsInSquares b → one ≡ cell_at a
        → other ≡ cell_at b → result ≤ 199 }
    ensures floor { (a b : Place) → IsInSquares a → IsInSquares b → one ≡ cell_at a
        → other ≡ cell_at b → floor_of result ≤ distance a b }
{
    u32::from(one.x.abs_diff(other.x).max(one.y.abs_diff(other.y)))
}

/// The metres below which no place of a ring lies from a place of the ring's middle cell.
pub fn ring_floor(ring: u32) -> u32
    requires { ring ≤ 200 }
    ensures { result ≡ floor_of ring }
{
    if ring == 0 {
        0
    } else {
        (ring - 1) * CELL_METRES + 1
    }
}
