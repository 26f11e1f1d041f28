//! Reading references: the letters of a square, then the digits of easting and northing.
ghost use Rattle.std.specs.Prelude.{◌≡◌, ◌≤◌, ◌<◌, ◌^◌, true, length, filter, IfSome};
ghost use Rattle.std.specs.List.{list_all};
ghost use Rattle.std.specs.Char.{is_ascii_digit};
ghost use Rattle.room_place.specs.Squares.{is_in_squares};
ghost use Rattle.room_place.specs.References.{parse, corner_of as corner_named};
ghost use Rattle.room_place.specs.References.{place_in as place_written};
ghost use Rattle.room_place.specs.References.{after_gap as rest_after_gap};
ghost use Rattle.room_place.specs.References.{are_digits as are_only_digits};
ghost use Rattle.room_place.specs.References.{metres_of as metres_written};
ghost use Rattle.room_place.specs.References.{number_of as number_written};
ghost use Rattle.room_place.specs.References.{are_allowed as all_allowed};

use crate::places::{Easting, Northing, Place, PlaceFault};

/// The place that a text names, or its first fault.
pub(crate) fn read(text: &str) -> Result<Place, PlaceFault>
    ensures { result ≡ parse text.now }
{
    let [letter, other, rest @ ..] = text.as_bytes() else {
        return Err(PlaceFault::Square);
    };
    let Some(corner) = corner_of(*letter, *other) else {
        return Err(PlaceFault::Square);
    };
    if !are_allowed(rest) {
        return Err(PlaceFault::Digit);
    }
    let half = match digit_count(rest) {
        6 => 3,
        8 => 4,
        10 => 5,
        _ => return Err(PlaceFault::Length),
    };
    place_in(half, rest, corner).ok_or(PlaceFault::Spacing)
}

// The south-west corner of the square that two letters name.
fn corner_of(letter: u8, other: u8) -> Option<Place>
    ensures value { result ≡ corner_named letter other }
    ensures corner { IfSome result (λ corner. (corner.east ≤ 500000) × (corner.north ≤ 200000)) }
{
    match (letter, other) {
        (b'T', b'Q') => Some(corner(500_000, 100_000)),
        (b'T', b'L') => Some(corner(500_000, 200_000)),
        (b'S', b'U') => Some(corner(400_000, 100_000)),
        (b'S', b'P') => Some(corner(400_000, 200_000)),
        _ => None,
    }
}

fn corner(east: u32, north: u32) -> Place
    requires { is_in_squares east north ≡ true }
    ensures { result ≡ record { east = east; north = north } }
{
    Place {
        east: Easting::of(east),
        north: Northing::of(north),
    }
}

fn are_allowed(bytes: &[u8]) -> bool
    ensures { result ≡ all_allowed bytes.now }
{
    bytes
        .iter()
        .all(|byte| byte.is_ascii_digit() || *byte == b' ')
}

fn digit_count(bytes: &[u8]) -> usize
    ensures { result ≡ length (filter is_ascii_digit bytes.now) }
{
    bytes.iter().filter(|byte| byte.is_ascii_digit()).count()
}

// The place that `half` digits each way name in the square of this corner.
fn place_in(half: usize, bytes: &[u8], corner: Place) -> Option<Place>
    requires least { 3 ≤ half }
    requires most { half ≤ 5 }
    requires east { corner.east ≤ 500000 }
    requires north { corner.north ≤ 200000 }
    ensures { result ≡ place_written half bytes.now corner }
{
    let (easting, rest) = after_gap(bytes).split_at_checked(half)?;
    let northing = after_gap(rest);
    if !are_digits(half, easting) || !are_digits(half, northing) {
        return None;
    }
    Some(Place {
        east: Easting::of(corner.east.get() + metres_of(half, easting)),
        north: Northing::of(corner.north.get() + metres_of(half, northing)),
    })
}

// What follows a space that may stand at the head.
fn after_gap(bytes: &[u8]) -> &[u8]
    ensures { result.now ≡ rest_after_gap bytes.now }
{
    match bytes {
        [b' ', rest @ ..] => rest,
        _ => bytes,
    }
}

fn are_digits(count: usize, bytes: &[u8]) -> bool
    ensures { result ≡ are_only_digits count bytes.now }
{
    bytes.len() == count && are_all_digits(bytes)
}

fn are_all_digits(bytes: &[u8]) -> bool
    ensures { result ≡ list_all is_ascii_digit bytes.now }
{
    bytes.iter().all(|byte| byte.is_ascii_digit())
}

// How far along its axis of a square some digits lie: three count in 100 m, four in 10 m, five in
// metres.
fn metres_of(half: usize, digits: &[u8]) -> u32
    requires least { 3 ≤ half }
    requires most { half ≤ 5 }
    requires digits { are_only_digits half digits.now ≡ true }
    ensures value { result ≡ metres_written half digits.now }
    ensures within { result < 100000 }
{
    let number = number_of(digits);
    match half {
        3 => number * 100,
        4 => number * 10,
        _ => number,
    }
}

// The number that some digits write.
fn number_of(digits: &[u8]) -> u32
    requires digits { list_all is_ascii_digit digits.now ≡ true }
    requires few { length digits.now ≤ 5 }
    ensures value { result ≡ number_written digits.now }
    ensures below { result < 10 ^ length digits.now }
{
    let mut number = 0;
    for digit in digits {
        number = number * 10 + u32::from(*digit - b'0');
    }
    number
}
