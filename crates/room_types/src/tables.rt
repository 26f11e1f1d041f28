//! The rows that the room keeps, one struct a table. Moments are whole seconds of UTC, places
//! metres of the National Grid.
use crate::callsign::Callsign;
use crate::codes::{Button, Kind, Outcome, State, Status};
use crate::needs::Needs;
use crate::note::Note;
use crate::numbers::{Class, Cover, LastNumber, Moment, Number, PointNumber, PositionNumber};
use room_place::places::Place;
use room_place::plans::DivisionNumber;

/// A division, and the incident number that it gave last (0 where none).
#[derive(Clone, Copy)]
pub struct Division {
    pub number: DivisionNumber,
    pub last_incident: LastNumber,
}

/// An event that calls report, and that vehicles are sent to.
#[derive(Clone, Copy)]
pub struct Incident {
    pub division: DivisionNumber,
    /// Counted from 1 in each division.
    pub number: Number,
    pub place: Place,
    pub class: Class,
    pub needs: Needs,
    /// The moment of its earliest call.
    pub opened: Moment,
    /// The moment of its first mobilisation; none before it.
    pub first_order: Option<Moment>,
    pub state: State,
}

/// A call that a call taker took, kept for good.
#[derive(Clone, Copy)]
pub struct Call {
    pub position: PositionNumber,
    /// Given by the position; it sends a call again under the same serial.
    pub serial: Number,
    /// The division that its place lies in.
    pub division: DivisionNumber,
    /// The incident that it belongs to now.
    pub incident: Number,
    /// The incident that was answered, and is answered again.
    pub given: Number,
    /// Whether it was linked to an incident that was there.
    pub linked: bool,
    pub place: Place,
    pub class: Class,
    pub needs: Needs,
    pub note: Note,
    pub at: Moment,
}

/// A vehicle, seen and sent by the division that holds it.
#[derive(Clone, Copy)]
pub struct Vehicle {
    pub callsign: Callsign,
    /// The division that it belongs to.
    pub home: DivisionNumber,
    /// The division whose desk sends it: its home, or the borrower of a loan.
    pub holder: DivisionNumber,
    pub kind: Kind,
    /// Where it was reported last.
    pub place: Place,
    pub status: Status,
    pub shift_end: Moment,
    /// The standby point of its holder that it was sent to, if any.
    pub post: Option<PointNumber>,
    /// The number of its last order, 0 where it had none.
    pub last_order: LastNumber,
    /// The greatest number of its reports, 0 where it sent none.
    pub last_report: LastNumber,
}

/// A vehicle's order for an incident, from the mobilisation to its end. It is open until it ended.
#[derive(Clone, Copy)]
pub struct Turn {
    pub callsign: Callsign,
    pub order: Number,
    pub division: DivisionNumber,
    pub incident: Number,
    pub kind: Kind,
    pub ordered: Moment,
    /// When the crew read the order; none before that, as with the moments below.
    pub acknowledged: Option<Moment>,
    pub scene: Option<Moment>,
    pub left: Option<Moment>,
    pub hospital: Option<Moment>,
    pub ended: Option<Moment>,
    /// Whether the desk ended it, and not the crew.
    pub stood_down: bool,
}

/// The order of a mobilised vehicle, with the place and class of then.
#[derive(Clone, Copy)]
pub struct Assignment {
    pub callsign: Callsign,
    pub division: DivisionNumber,
    pub incident: Number,
    pub order: Number,
    pub place: Place,
    pub class: Class,
}

/// A standby point of a division, and how many vehicles it needs.
#[derive(Clone, Copy)]
pub struct Point {
    pub division: DivisionNumber,
    pub number: PointNumber,
    pub place: Place,
    pub cover: Cover,
}

/// A vehicle that another division holds for a while.
#[derive(Clone, Copy)]
pub struct Loan {
    pub callsign: Callsign,
    pub lender: DivisionNumber,
    pub borrower: DivisionNumber,
    pub since: Moment,
    /// When it is due; it may pass.
    pub until: Moment,
    /// Whether the lender asked for it back.
    pub recalled: bool,
}

/// A vehicle that its division offers to lend, until the offer is answered or withdrawn.
#[derive(Clone, Copy)]
pub struct Offer {
    pub callsign: Callsign,
    pub lender: DivisionNumber,
    pub borrower: DivisionNumber,
    pub since: Moment,
    pub until: Moment,
}

/// What a crew reported, kept for good with what became of it.
#[derive(Clone, Copy)]
pub struct Report {
    pub callsign: Callsign,
    /// Given by the terminal; it sends a report again under the same number.
    pub number: Number,
    pub button: Button,
    /// The order that it speaks of, 0 for none.
    pub order: LastNumber,
    pub place: Place,
    pub at: Moment,
    /// The division that held the vehicle when it came.
    pub division: DivisionNumber,
    pub outcome: Outcome,
    /// The vehicle's status after it.
    pub status: Status,
    /// Whether the desk has seen to it, where it was an exception.
    pub cleared: bool,
}

impl Report {
    ghost use Rattle.std.specs.Prelude.{◌≡◌};
    ghost use Rattle.room_types.specs.Codes.{is_exception};

    /// Whether it was out of turn, and nobody has cleared it.
    pub fn is_exception(&self) -> bool
        ensures { result ≡ is_exception self.now }
    {
        !matches!(self.outcome, Outcome::Normal) && !self.cleared
    }
}
