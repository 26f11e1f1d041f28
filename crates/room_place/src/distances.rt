//! How far one place is from another.
ghost use Rattle.std.specs.Prelude.{◌≡◌};
ghost use Rattle.room_place.specs.Places.{distance as distance_of, IsRoot, square_between};

use crate::places::Place;

/// The distance in metres, rounded down: the greatest whole number whose square is at most
/// the sum of the squares of the differences in easting and northing.
pub fn distance(a: Place, b: Place) -> u32
    ensures value { result ≡ distance_of a b }
    ensures root { IsRoot (square_between a b) result }
{
    let east = u64::from(a.east.get().abs_diff(b.east.get()));
    let north = u64::from(a.north.get().abs_diff(b.north.get()));
    (east * east + north * north).isqrt() as u32
}
