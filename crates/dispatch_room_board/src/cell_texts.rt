//! The texts of cells.
ghost use Rattle.std.specs.Prelude.{◌≡◌, IfOk, string_bytes};
ghost use Rattle.dispatch_room_board.specs.BoardCells.{age_text, counts_text, five_digits};
ghost use Rattle.dispatch_room_board.specs.BoardCells.{place_text, served_text, square_of, text_of};

use crate::board_cells::BoardCell;
use room_place::places::Place;
use room_types::answers::Served;
use room_types::needs::Counts;
use std::alloc::{AllocError, Global};

/// The text of a cell.
#[tactic(auto, unfolding(crate::specs::BoardCells::named_text))]
pub fn text_of(alloc: Global, cell: &BoardCell<'_>) -> Result<String, AllocError>
    ensures { IfOk result (λ text. string_bytes text ≡ text_of cell.now) }
{
    match *cell {
        BoardCell::Text(text) => String::from_str(alloc, text),
        BoardCell::Number(number) => number.to_string(alloc),
        BoardCell::Named(word, number) => format!(in alloc; "{word} {number}"),
        BoardCell::Age(seconds) => age_text(alloc, seconds),
        BoardCell::Place(place) => place_text(alloc, place),
        BoardCell::Counts(counts) => counts_text(alloc, counts),
        BoardCell::Served(served) => served_text(alloc, served),
    }
}

// So many seconds as hours, minutes and seconds.
#[tactic(auto, unfolding(crate::specs::BoardCells::age_text))]
fn age_text(alloc: Global, seconds: u32) -> Result<String, AllocError>
    ensures { IfOk result (λ text. string_bytes text ≡ age_text seconds) }
{
    let (hours, minutes, seconds) = (seconds / 3600, seconds / 60 % 60, seconds % 60);
    let (a, b, c, d) = (minutes / 10, minutes % 10, seconds / 10, seconds % 10);
    format!(in alloc; "{hours}:{a}{b}:{c}{d}")
}

// The letters of the square that a place lies in, and metres from its south-west corner.
#[tactic(auto, unfolding(crate::specs::BoardCells::place_text))]
fn place_text(alloc: Global, place: Place) -> Result<String, AllocError>
    ensures { IfOk result (λ text. string_bytes text ≡ place_text place) }
{
    let (east, north) = (place.east.get(), place.north.get());
    let square = square_of(east, north);
    let east = five_digits(alloc, east)?;
    let north = five_digits(alloc, north)?;
    format!(in alloc; "{square} {east} {north}")
}

// The last five digits of a number.
#[tactic(auto, unfolding(crate::specs::BoardCells::five_digits))]
fn five_digits(alloc: Global, number: u32) -> Result<String, AllocError>
    ensures { IfOk result (λ text. string_bytes text ≡ five_digits number) }
{
    let (a, b, c) = (number / 10_000 % 10, number / 1_000 % 10, number / 100 % 10);
    let (d, e) = (number / 10 % 10, number % 10);
    format!(in alloc; "{a}{b}{c}{d}{e}")
}

fn square_of(east: u32, north: u32) -> &'static str
    ensures { result.now ≡ square_of east north }
{
    match (east < 500_000, north < 200_000) {
        (true, true) => "SU",
        (true, false) => "SP",
        (false, true) => "TQ",
        (false, false) => "TL",
    }
}

#[tactic(auto, unfolding(crate::specs::BoardCells::counts_text))]
fn counts_text(alloc: Global, counts: Counts) -> Result<String, AllocError>
    ensures { IfOk result (λ text. string_bytes text ≡ counts_text counts) }
{
    let ambulances = counts.ambulances.get();
    let cars = counts.cars.get();
    let support = counts.support.get();
    format!(in alloc; "{ambulances} {cars} {support}")
}

#[tactic(auto, unfolding(crate::specs::BoardCells::served_text))]
fn served_text(alloc: Global, served: Served) -> Result<String, AllocError>
    ensures { IfOk result (λ text. string_bytes text ≡ served_text served) }
{
    let (ambulances, cars, support) = (served.ambulances, served.cars, served.support);
    format!(in alloc; "{ambulances} {cars} {support}")
}
