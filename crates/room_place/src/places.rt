//! Places on the map.
ghost use Rattle.std.specs.Prelude.{◌≡◌};
ghost use Rattle.room_place.specs.Squares.{is_in_squares as in_squares};

use crate::bounded_numbers::Bounded;
pub use crate::distances::distance;
use crate::grid_references;
use std::fmt;

/// Metres of easting from the National Grid's false origin, within the squares.
pub type Easting = Bounded<400000, 599999>;

/// Metres of northing from the National Grid's false origin, within the squares.
pub type Northing = Bounded<100000, 299999>;

/// A point of the squares TQ, TL, SU and SP of the Ordnance Survey National Grid.
#[derive(Clone, Copy, PartialEq, Eq)]
pub struct Place {
    pub east: Easting,
    pub north: Northing,
}

/// Why a text is no reference. Of several reasons the first of this list is given.
#[derive(Clone, Copy, PartialEq, Eq)]
pub enum PlaceFault {
    /// The first two characters are none of the four squares' letters.
    Square,
    /// A later character is neither an ASCII digit nor a space.
    Digit,
    /// There are not six, eight or ten digits.
    Length,
    /// A space stands where none may.
    Spacing,
}

impl Place {
    ghost use Rattle.std.specs.Prelude.{◌≡◌, true, IfOk, IfErr, Ok};
    ghost use Rattle.std.specs.Option.{SomeIff};
    ghost use Rattle.room_place.specs.Squares.{is_in_squares};
    ghost use Rattle.room_place.specs.References.{parse as reading, IsReference, IsFirstFault};
    ghost use Rattle.room_place.specs.declared.places.Place.{Place};

    /// The place of these metres of easting and northing: none outside the squares.
    pub fn new(east: u32, north: u32) -> Option<Place>
        ensures { SomeIff result (is_in_squares east north ≡ true)
            (record { east = east; north = north }) }
    {
        match (Easting::new(east), Northing::new(north)) {
            (Some(east), Some(north)) => Some(Place { east, north }),
            _ => None,
        }
    }

    /// The place that a grid reference names: the letters of a square, then three, four or five
    /// digits of easting and as many of northing. These count hundreds or tens of metres or metres
    /// from the square's south-west corner, and the place is that corner of the small square that
    /// they name. One space may follow the letters, and one may stand between the halves.
    pub fn parse(text: &str) -> Result<Place, PlaceFault>
        ensures value { result ≡ reading text.now }

        // Exactly the references have a place.
        ensures place { IfOk result (IsReference text.now) }
        ensures only { (place : Place) → IsReference text.now place → result ≡ Ok place }
        ensures fault { IfErr result (IsFirstFault text.now) }
    {
        grid_references::read(text)
    }
}

/// Whether a point, in metres of easting and northing, lies in the squares.
pub(crate) fn is_in_squares(east: u32, north: u32) -> bool
    ensures { result ≡ in_squares east north }
{
    Place::new(east, north).is_some()
}

impl fmt::Display for PlaceFault {
    fn fmt<W: fmt::Write>(&self, f: &mut fmt::Formatter<W>) -> fmt::Result {
        f.write_str(match self {
            PlaceFault::Square => "the reference begins with none of TQ, TL, SU and SP",
            PlaceFault::Digit =>
                "the reference has a character that is neither a digit nor a space",
            PlaceFault::Length => "the reference has not 6, 8 or 10 digits",
            PlaceFault::Spacing => "the reference has a space where none may stand",
        })
    }
}
