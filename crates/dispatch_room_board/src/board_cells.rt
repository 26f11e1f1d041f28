//! What stands in a column of a row.
ghost use Rattle.std.specs.Prelude.{◌≡◌};
ghost use Rattle.dispatch_room_board.specs.BoardCells.{after_text, kind_text, left_text};
ghost use Rattle.dispatch_room_board.specs.BoardCells.{since_any_text, since_text, status_text};
ghost use Rattle.dispatch_room_board.specs.BoardCells.{text_of};

use room_place::places::Place;
use room_types::answers::Served;
use room_types::codes::{Kind, Status};
use room_types::needs::Counts;
use room_types::numbers::Moment;

/// What stands in a column of a row.
#[derive(Clone, Copy)]
pub enum BoardCell<'a> {
    Text(&'a str),
    Number(u64),
    /// A word and a number, as `incident 7`.
    Named(&'a str, u32),
    /// So many seconds, as hours, minutes and seconds.
    Age(u32),
    /// A grid reference to the metre.
    Place(Place),
    /// Ambulances, cars, support.
    Counts(Counts),
    /// The same of those that serve.
    Served(Served),
}

/// The longest age that is shown: all above it are shown as this one, which is 9999:59:59.
pub const LONGEST: u32 = 35_999_999;

/// The longest time after an order that is shown for its turn, which is 9:59:59.
pub const LONGEST_TURN: u32 = 35_999;

/// How long a moment is past; 0 where it lies ahead.
pub fn since(moment: Moment, now: Moment) -> BoardCell<'static>
    ensures { text_of result ≡ since_text now moment }
{
    BoardCell::Age(now.get().saturating_sub(moment.get()).min(LONGEST))
}

/// How long a moment is past, where there is one.
pub fn since_any(moment: Option<Moment>, now: Moment) -> BoardCell<'static>
    ensures { text_of result ≡ since_any_text now moment }
{
    match moment {
        Some(moment) => since(moment, now),
        None => BoardCell::Text("-"),
    }
}

/// How long after an order a step of its turn came, where it has come.
pub fn after(order: Moment, step: Option<Moment>) -> BoardCell<'static>
    ensures { text_of result ≡ after_text order step }
{
    match step {
        Some(step) => BoardCell::Age(step.get().saturating_sub(order.get()).min(LONGEST_TURN)),
        None => BoardCell::Text("-"),
    }
}

/// How many whole minutes are left to a moment.
pub fn left(moment: Moment, now: Moment) -> BoardCell<'static>
    ensures { text_of result ≡ left_text now moment }
{
    if now.get() < moment.get() {
        BoardCell::Number(u64::from((moment.get() - now.get()) / 60))
    } else {
        BoardCell::Text("over")
    }
}

pub fn kind(kind: Kind) -> BoardCell<'static>
    ensures { text_of result ≡ kind_text kind }
{
    BoardCell::Text(match kind {
        Kind::Ambulance => "ambulance",
        Kind::Car => "car",
        Kind::Support => "support",
    })
}

pub fn status(status: Status) -> BoardCell<'static>
    ensures { text_of result ≡ status_text status }
{
    BoardCell::Text(match status {
        Status::OffDuty => "off duty",
        Status::Available => "available",
        Status::Mobilised => "mobilised",
        Status::AtScene => "at scene",
        Status::Leaving => "leaving",
        Status::AtHospital => "at hospital",
        Status::Returning => "returning",
        Status::Offered => "offered",
    })
}
