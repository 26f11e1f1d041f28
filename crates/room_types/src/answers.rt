//! What is answered to a request, and the lines of the longer answers.
ghost use Rattle.std.specs.Prelude.{◌≡◌, List, [], ◌∷◌, ◌++◌, length, IsTrue, ◌↔◌, OnOk, OnErr};

use crate::callsign::Callsign;
use crate::codes::{Kind, Outcome, Status};
use crate::needs::{Counts, Needs};
use crate::note::Note;
use crate::numbers::{Class, Cover, LastNumber, Moment, Number, PointNumber};
use crate::ranks::Rank;
use crate::tables::{Assignment, Call, Incident, Loan, Offer, Report, Turn};
use room_place::places::Place;
use room_place::plans::DivisionNumber;
use std::alloc::{AllocError, Global};
use std::marker::Model;

/// The lines of an answer, seen as a list.
#[derive(Drop)]
pub struct Listed<L: Copy> {
    lines: Vec<L>,
}

impl<L: Copy> Model for Listed<L> {
    ghost Value = { List L };

    ghost view = { λ a. a.lines.items };
}

impl<L: Copy> Listed<L> {
    /// No lines yet. It takes no memory before the first push.
    pub fn new(alloc: Global) -> Self
        ensures { result ≡ [] }
    {
        Listed {
            lines: Vec::new(alloc),
        }
    }

    /// The lines, in their order.
    pub fn as_slice(&self) -> &[L]
        ensures { result.now ≡ self.now }
    {
        self.lines.as_slice()
    }

    /// How many lines there are.
    pub fn len(&self) -> usize
        ensures { result ≡ length self.now }
    {
        self.lines.len()
    }

    /// Whether there is no line.
    pub fn is_empty(&self) -> bool
        ensures { IsTrue result ↔ (self.now ≡ []) }
    {
        self.lines.is_empty()
    }

    /// Adds a line at the end. An error changes nothing.
    pub fn push(&mut self, line: L) -> Result<(), AllocError>
        ensures ok { OnOk result (self.new ≡ self.old ++ line ∷ []) }
        ensures err { OnErr result (self.new ≡ self.old) }
    {
        self.lines.push(line)?;
        Ok(())
    }
}

/// An active incident, with its number of calls and what it lacks.
#[derive(Clone, Copy)]
pub struct IncidentLine {
    pub number: Number,
    pub place: Place,
    pub class: Class,
    pub needs: Needs,
    pub lack: Counts,
    pub opened: Moment,
    /// How many calls belong to it.
    pub calls: u64,
}

/// How many vehicles of each kind serve an incident.
#[derive(Clone, Copy)]
pub struct Served {
    pub ambulances: u64,
    pub cars: u64,
    pub support: u64,
}

/// An incident, active or not, with all that came of it. Calls and turns stand in the order of
/// their keys.
#[derive(Drop)]
pub struct History {
    pub incident: Incident,
    pub served: Served,
    /// The calls that belong to it now.
    pub calls: Listed<Call>,
    /// The turns of the vehicles that were sent to it.
    pub turns: Listed<Turn>,
}

/// A vehicle that may be sent to an incident.
#[derive(Clone, Copy)]
pub struct Proposal {
    /// Whether sending it leaves a standby point with fewer vehicles than it needs.
    pub breaks: bool,
    /// From the incident, in whole metres.
    pub distance: u32,
    pub kind: Kind,
    pub callsign: Callsign,
}

/// A vehicle that the division holds, with the incident that it is assigned to.
#[derive(Clone, Copy)]
pub struct VehicleLine {
    pub callsign: Callsign,
    pub home: DivisionNumber,
    pub incident: Option<Number>,
    pub kind: Kind,
    pub place: Place,
    pub post: Option<PointNumber>,
    pub shift_end: Moment,
    pub status: Status,
}

/// A vehicle that was sent by the order of this number, or was stood down.
#[derive(Clone, Copy)]
pub struct MoveLine {
    pub callsign: Callsign,
    pub order: Option<Number>,
}

/// A standby point, with the number of vehicles that hold it at the moment.
#[derive(Clone, Copy)]
pub struct PointLine {
    pub number: PointNumber,
    pub place: Place,
    pub cover: Cover,
    pub held: u64,
}

/// Something that needs an eye. Entries stand in the order of their fields, none before any
/// callsign.
#[derive(Clone, Copy, PartialEq, Eq, PartialOrd, Ord)]
pub struct QueueEntry {
    pub rank: Rank,
    /// The moment that it counts from.
    pub since: Moment,
    /// Of what the rank says.
    pub number: u32,
    /// The vehicle that it is about, if any.
    pub callsign: Option<Callsign>,
}

/// A crew's order, with what is known of its incident now.
#[derive(Drop)]
pub struct Job {
    pub order: Assignment,
    pub post: Option<PointNumber>,
    pub status: Status,
    /// The incident's, which a later call or a merge may have changed since the order.
    pub class: Class,
    /// The notes of the calls that belong to the incident, in the order of their keys.
    pub notes: Listed<Note>,
}

/// An incident of a day, with the seconds from its opening to its first order, if it had one.
#[derive(Clone, Copy)]
pub struct TimesLine {
    pub number: Number,
    pub opened: Moment,
    pub activation: Option<u32>,
}

/// The incidents of a day, merged ones left out.
#[derive(Drop)]
pub struct Times {
    /// Seconds since 1970 in UTC: the first of the day.
    pub from: i64,
    /// The first second of the next day.
    pub to: i64,
    /// How many have had an order.
    pub activated: u32,
    /// How many had one within 180 seconds.
    pub within: u32,
    pub lines: Listed<TimesLine>,
}

/// How many incidents of a class a day has, merged ones left out, and how many of them had an order.
#[derive(Clone, Copy)]
pub struct ClassLine {
    pub class: Class,
    pub opened: u64,
    /// How many have had an order.
    pub activated: u64,
    /// How many had one within 180 seconds.
    pub within: u64,
}

/// How many classes there are.
pub const CLASSES: usize = 3;

/// The times of a day by class, the most urgent first.
#[derive(Clone, Copy)]
pub struct ClassTimes {
    /// Seconds since 1970 in UTC: the first of the day.
    pub from: i64,
    /// The first second of the next day.
    pub to: i64,
    pub lines: [ClassLine; CLASSES],
}

/// A page of incidents that are closed, or were merged, in number order.
#[derive(Drop)]
pub struct ClosedPage {
    pub incidents: Listed<Incident>,
    /// The number of the first incident of the next page, where there is one.
    pub next: Option<Number>,
}

/// One variant for each form of answer.
#[derive(Drop)]
pub enum Answer {
    /// Division, incident, and whether the call was linked.
    Called(DivisionNumber, Number, bool),
    Incidents(Listed<IncidentLine>),
    Incident(History),
    Proposals(Listed<Proposal>),
    /// The order's number and the vehicle.
    Mobilised(Number, Callsign),
    /// What became of each move, in their order.
    Moved(Listed<MoveLine>),
    /// The request was carried out, and there is nothing to show.
    Done,
    Vehicles(Listed<VehicleLine>),
    Reports(Listed<Report>),
    Queue(Listed<QueueEntry>),
    Points(Listed<PointLine>),
    Loans(Listed<Loan>),
    Offers(Listed<Offer>),
    Times(Times),
    ClassTimes(ClassTimes),
    Closed(ClosedPage),
    /// The vehicle's order, its post and its status.
    Order(Option<Assignment>, Option<PointNumber>, Status),
    Job(Job),
    /// The report's number, what became of it, and the status after it.
    Reported(Number, Outcome, Status),
    /// The greatest number of the crew's reports, and of its orders; 0 where there is none.
    LastReport(LastNumber, LastNumber),
    /// The greatest serial of the position's calls; 0 where there is none.
    LastSerial(LastNumber),
}
