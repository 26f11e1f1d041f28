//! Who asks, and what.
use crate::callsign::Callsign;
use crate::codes::Button;
use crate::needs::Needs;
use crate::note::Note;
use crate::numbers::{
    Class, Cover, LastNumber, Metres, Moment, Number, PointNumber, PositionNumber,
};
use room_place::places::Place;
use room_place::plans::DivisionNumber;

/// The terminal that asks.
#[derive(Clone, Copy, PartialEq, Eq)]
pub enum Who {
    /// The desk of a division.
    Desk(DivisionNumber),
    /// The crew of a vehicle.
    Crew(Callsign),
    /// A call taker's position.
    Position(PositionNumber),
}

/// What a call taker sends.
#[derive(Clone, Copy)]
pub struct CallForm {
    /// Given by the position; a call that is sent again has the same.
    pub serial: Number,
    pub place: Place,
    pub class: Class,
    pub needs: Needs,
    pub note: Note,
}

/// A call, with the position that took it and its moment.
#[derive(Clone, Copy)]
pub struct NewCall {
    pub position: PositionNumber,
    pub serial: Number,
    pub place: Place,
    pub class: Class,
    pub needs: Needs,
    pub note: Note,
    pub at: Moment,
}

/// What a crew sends.
#[derive(Clone, Copy)]
pub struct Press {
    /// Given by the terminal; a report that is sent again has the same.
    pub number: Number,
    pub button: Button,
    /// The order that it speaks of, 0 for none.
    pub order: LastNumber,
    pub place: Place,
}

/// A vehicle to send to an incident, or to stand down where none is named.
#[derive(Clone, Copy)]
pub struct Move {
    pub callsign: Callsign,
    pub incident: Option<Number>,
}

/// How many moves may follow the first one of a list.
pub const MORE_MOVES: usize = 7;

/// Moves that are made one after another, all or none: the first one, and those that follow it.
#[derive(Clone, Copy)]
pub struct Moves {
    pub first: Move,
    pub others: [Option<Move>; MORE_MOVES],
}

/// Which of the incidents of a day that are over are sought.
#[derive(Clone, Copy)]
pub enum Sought {
    All,
    /// Those that a vehicle was sent to.
    Sent(Callsign),
    /// Those at most so far from a place.
    Near(Place, Metres),
}

/// A page of the incidents that are sought: those from a number on.
#[derive(Clone, Copy)]
pub struct Search {
    pub sought: Sought,
    pub first: Number,
}

/// What is asked: one variant for each path of the HTTP interface.
#[derive(Clone, Copy)]
pub enum Ask {
    Call(CallForm),
    Incidents,
    /// An incident's history.
    Incident(Number),
    /// Proposals for an incident.
    Propose(Number),
    /// A vehicle for an incident.
    Mobilise(Number, Callsign),
    Needs(Number, Needs),
    /// The first incident into the second.
    Merge(Number, Number),
    Close(Number),
    Vehicles,
    /// Vehicles sent and stood down.
    Moves(Moves),
    StandDown(Callsign),
    /// To a point, or to none.
    Standby(Callsign, Option<PointNumber>),
    /// On duty at a place until a moment.
    Duty(Callsign, Place, Moment),
    Off(Callsign),
    /// To a division until a moment.
    Lend(Callsign, DivisionNumber, Moment),
    Withdraw(Callsign),
    Decline(Callsign),
    Accept(Callsign),
    Recall(Callsign),
    GiveBack(Callsign),
    /// A vehicle's reports.
    Reports(Callsign),
    Queue,
    /// A vehicle's report of a number.
    Clear(Callsign, Number),
    Points,
    /// A point's number, place and cover.
    SetPoint(PointNumber, Place, Cover),
    Loans,
    Offers,
    /// From a second of UTC since 1970 to another, which is left out. Both may be negative, since a
    /// day of 1970 may begin before it in UTC.
    Times(i64, i64),
    /// The times of those seconds by class.
    ClassTimes(i64, i64),
    /// The incidents that were opened in those seconds and are over.
    Closed(i64, i64, Search),
    Order,
    /// The order, with its incident's class and the notes of its calls.
    Job,
    Report(Press),
    /// The last numbers of who asks: a crew or a position.
    Last,
}

/// An ask, with its terminal and its moment.
#[derive(Clone, Copy)]
pub struct Event {
    pub who: Who,
    pub ask: Ask,
    pub at: Moment,
}
