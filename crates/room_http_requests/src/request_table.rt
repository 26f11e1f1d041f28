//! The table of requests: each path, its pattern and methods, what its target names, who may ask,
//! and what is asked.
ghost use Rattle.std.specs.Prelude.{◌≡◌, ◌⊎◌, MatchResult, None, Some};
ghost use Rattle.room_types.specs.declared.refusal_statuses.Refusal.TheVariants.{BadBody, Memory};
ghost use Rattle.room_http_requests.specs.RequestTable.{allow_of, between, is_of, is_of_history};
ghost use Rattle.room_http_requests.specs.RequestTable.{members_of, named_by, pattern_of};
ghost use Rattle.room_http_requests.specs.RequestTable.{request_by, role_of, searched};

use crate::bodies::ask_with_body;
use crate::body_fields::fields_of;
use crate::parameters::{segment, whole};
use room_http_time::days::Day;
use room_place::places::Place;
use room_types::asks::{Ask, Search, Sought, Who};
use room_types::callsign::Callsign;
use room_types::numbers::{Number, PointNumber};
use room_types::refusal_statuses::{Allow, Refusal};
use std::alloc::Global;

/// A path, without its parameters.
#[derive(Clone, Copy, PartialEq, Eq)]
pub enum Path {
    Call,
    Incidents,
    Incident,
    Propose,
    Mobilise,
    Needs,
    Merge,
    Close,
    Vehicles,
    Moves,
    StandDown,
    Standby,
    Duty,
    Off,
    Lend,
    Withdraw,
    Decline,
    Accept,
    Recall,
    GiveBack,
    Reports,
    Queue,
    Clear,
    Points,
    SetPoint,
    Loans,
    Offers,
    Times,
    ClassTimes,
    Closed,
    ClosedBy,
    ClosedNear,
    Order,
    Job,
    Report,
    Last,
}

/// All paths.
pub const PATHS: [Path; 36] = [
    Path::Call,
    Path::Incidents,
    Path::Incident,
    Path::Propose,
    Path::Mobilise,
    Path::Needs,
    Path::Merge,
    Path::Close,
    Path::Vehicles,
    Path::Moves,
    Path::StandDown,
    Path::Standby,
    Path::Duty,
    Path::Off,
    Path::Lend,
    Path::Withdraw,
    Path::Decline,
    Path::Accept,
    Path::Recall,
    Path::GiveBack,
    Path::Reports,
    Path::Queue,
    Path::Clear,
    Path::Points,
    Path::SetPoint,
    Path::Loans,
    Path::Offers,
    Path::Times,
    Path::ClassTimes,
    Path::Closed,
    Path::ClosedBy,
    Path::ClosedNear,
    Path::Order,
    Path::Job,
    Path::Report,
    Path::Last,
];

impl Path {
    /// The pattern of the path, as a router takes it; a name in braces stands for one segment.
    pub fn pattern(self) -> &'static str
        ensures { result.now ≡ pattern_of self }
    {
        match self {
            Path::Call => "/call",
            Path::Incidents => "/incidents",
            Path::Incident => "/incidents/{n}",
            Path::Propose => "/incidents/{n}/propose",
            Path::Mobilise => "/incidents/{n}/mobilise",
            Path::Needs => "/incidents/{n}/needs",
            Path::Merge => "/incidents/{n}/merge",
            Path::Close => "/incidents/{n}/close",
            Path::Vehicles => "/vehicles",
            Path::Moves => "/moves",
            Path::StandDown => "/vehicles/{c}/standdown",
            Path::Standby => "/vehicles/{c}/standby",
            Path::Duty => "/vehicles/{c}/duty",
            Path::Off => "/vehicles/{c}/off",
            Path::Lend => "/vehicles/{c}/lend",
            Path::Withdraw => "/vehicles/{c}/withdraw",
            Path::Decline => "/vehicles/{c}/decline",
            Path::Accept => "/vehicles/{c}/accept",
            Path::Recall => "/vehicles/{c}/recall",
            Path::GiveBack => "/vehicles/{c}/giveback",
            Path::Reports => "/vehicles/{c}/reports",
            Path::Queue => "/queue",
            Path::Clear => "/queue/{c}/{n}/clear",
            Path::Points => "/points",
            Path::SetPoint => "/points/{n}",
            Path::Loans => "/loans",
            Path::Offers => "/offers",
            Path::Times => "/times/{day}",
            Path::ClassTimes => "/times/{day}/classes",
            Path::Closed => "/closed/{day}/from/{n}",
            Path::ClosedBy => "/closed/{day}/vehicle/{c}/from/{n}",
            Path::ClosedNear => "/closed/{day}/near/{place}/{metres}/from/{n}",
            Path::Order => "/order",
            Path::Job => "/job",
            Path::Report => "/report",
            Path::Last => "/last",
        }
    }

    /// The methods that the path takes.
    pub fn allow(self) -> Allow
        ensures { result ≡ allow_of self }
    {
        match self {
            Path::Incidents
            | Path::Incident
            | Path::Propose
            | Path::Vehicles
            | Path::Reports
            | Path::Queue
            | Path::Points
            | Path::Loans
            | Path::Offers
            | Path::Times
            | Path::ClassTimes
            | Path::Closed
            | Path::ClosedBy
            | Path::ClosedNear
            | Path::Order
            | Path::Job
            | Path::Last => Allow::GetHead,
            Path::Call
            | Path::Mobilise
            | Path::Needs
            | Path::Merge
            | Path::Close
            | Path::Moves
            | Path::StandDown
            | Path::Standby
            | Path::Duty
            | Path::Off
            | Path::Lend
            | Path::Withdraw
            | Path::Decline
            | Path::Accept
            | Path::Recall
            | Path::GiveBack
            | Path::Clear
            | Path::SetPoint
            | Path::Report => Allow::Post,
        }
    }

    /// Whether the path is one of history, which is served only where that is asked for.
    pub fn is_of_history(self) -> bool
        ensures { result ≡ is_of_history self }
    {
        matches!(
            self,
            Path::Incident
                | Path::Moves
                | Path::Reports
                | Path::ClassTimes
                | Path::Closed
                | Path::ClosedBy
                | Path::ClosedNear
                | Path::Job
                | Path::Last
        )
    }
}

/// A path of the room, with the parameters that stand in the target.
#[derive(Clone, Copy)]
pub enum Target {
    Call,
    Incidents,
    Incident(Number),
    Propose(Number),
    Mobilise(Number),
    Needs(Number),
    Merge(Number),
    Close(Number),
    Vehicles,
    Moves,
    StandDown(Callsign),
    Standby(Callsign),
    Duty(Callsign),
    Off(Callsign),
    Lend(Callsign),
    Withdraw(Callsign),
    Decline(Callsign),
    Accept(Callsign),
    Recall(Callsign),
    GiveBack(Callsign),
    Reports(Callsign),
    Queue,
    Clear(Callsign, Number),
    Points,
    SetPoint(PointNumber),
    Loans,
    Offers,
    Times(Day),
    ClassTimes(Day),
    Closed(Day, Search),
    Order,
    Job,
    Report,
    Last,
}

impl Target {
    /// What the text of a target of this path names: none where a parameter is not of its form. The
    /// first parameter is the third segment; the number of a report is the fourth, and the
    /// parameters of a search are later ones.
    pub(crate) fn parse(path: Path, text: &str) -> Option<Target>
        ensures { result ≡ named_by path text.now }
    {
        let parameter = segment(text, 2);
        match path {
            Path::Call => Some(Target::Call),
            Path::Incidents => Some(Target::Incidents),
            Path::Incident => Some(Target::Incident(whole(parameter)?)),
            Path::Propose => Some(Target::Propose(whole(parameter)?)),
            Path::Mobilise => Some(Target::Mobilise(whole(parameter)?)),
            Path::Needs => Some(Target::Needs(whole(parameter)?)),
            Path::Merge => Some(Target::Merge(whole(parameter)?)),
            Path::Close => Some(Target::Close(whole(parameter)?)),
            Path::Vehicles => Some(Target::Vehicles),
            Path::Moves => Some(Target::Moves),
            Path::StandDown => Some(Target::StandDown(Callsign::parse(parameter)?)),
            Path::Standby => Some(Target::Standby(Callsign::parse(parameter)?)),
            Path::Duty => Some(Target::Duty(Callsign::parse(parameter)?)),
            Path::Off => Some(Target::Off(Callsign::parse(parameter)?)),
            Path::Lend => Some(Target::Lend(Callsign::parse(parameter)?)),
            Path::Withdraw => Some(Target::Withdraw(Callsign::parse(parameter)?)),
            Path::Decline => Some(Target::Decline(Callsign::parse(parameter)?)),
            Path::Accept => Some(Target::Accept(Callsign::parse(parameter)?)),
            Path::Recall => Some(Target::Recall(Callsign::parse(parameter)?)),
            Path::GiveBack => Some(Target::GiveBack(Callsign::parse(parameter)?)),
            Path::Reports => Some(Target::Reports(Callsign::parse(parameter)?)),
            Path::Queue => Some(Target::Queue),
            Path::Clear => {
                let callsign = Callsign::parse(parameter)?;
                let number = whole(segment(text, 3))?;
                Some(Target::Clear(callsign, number))
            }
            Path::Points => Some(Target::Points),
            Path::SetPoint => Some(Target::SetPoint(whole(parameter)?)),
            Path::Loans => Some(Target::Loans),
            Path::Offers => Some(Target::Offers),
            Path::Times => Some(Target::Times(Day::parse(parameter)?)),
            Path::ClassTimes => Some(Target::ClassTimes(Day::parse(parameter)?)),
            Path::Closed => searched(parameter, Sought::All, segment(text, 4)),
            Path::ClosedBy => {
                let callsign = Callsign::parse(segment(text, 4))?;
                searched(parameter, Sought::Sent(callsign), segment(text, 6))
            }
            Path::ClosedNear => {
                let place = Place::parse(segment(text, 4)).ok()?;
                let metres = whole(segment(text, 5))?;
                searched(parameter, Sought::Near(place, metres), segment(text, 7))
            }
            Path::Order => Some(Target::Order),
            Path::Job => Some(Target::Job),
            Path::Report => Some(Target::Report),
            Path::Last => Some(Target::Last),
        }
    }

    /// How many members the body of a target has: none where it takes no body.
    pub(crate) fn members(&self) -> usize
        ensures { result ≡ members_of self.now }
    {
        match self {
            Target::Call => 5,
            Target::Report => 4,
            Target::Duty(_) | Target::Lend(_) | Target::SetPoint(_) => 2,
            Target::Mobilise(_)
            | Target::Needs(_)
            | Target::Merge(_)
            | Target::Moves
            | Target::Standby(_) => 1,
            _ => 0,
        }
    }
}

/// The incidents of a day that are sought, from a number on.
fn searched(day: &str, sought: Sought, first: &str) -> Option<Target>
    ensures { result ≡ searched day.now sought first.now }
{
    let day = Day::parse(day)?;
    let first = whole(first)?;
    Some(Target::Closed(day, Search { sought, first }))
}

/// What a terminal is.
#[derive(Clone, Copy, PartialEq, Eq)]
pub enum Role {
    Desk,
    Position,
    Crew,
    /// A position or a crew, which number what they send.
    Sender,
}

impl Role {
    /// The role that may ask for what a target names.
    pub fn of(target: &Target) -> Role
        ensures { result ≡ role_of target.now }
    {
        match target {
            Target::Call => Role::Position,
            Target::Order | Target::Job | Target::Report => Role::Crew,
            Target::Last => Role::Sender,
            _ => Role::Desk,
        }
    }

    /// Whether a terminal has this role.
    pub fn is_of(self, who: &Who) -> bool
        ensures { result ≡ is_of self who.now }
    {
        match (self, who) {
            (Role::Desk, Who::Desk(_)) => true,
            (Role::Position, Who::Position(_)) => true,
            (Role::Crew, Who::Crew(_)) => true,
            (Role::Sender, Who::Position(_) | Who::Crew(_)) => true,
            _ => false,
        }
    }
}

/// What is asked of a day.
#[derive(Clone, Copy)]
pub enum DayAsk {
    Times,
    /// Its times by class.
    ClassTimes,
    /// Those incidents that were opened on it, are over and are sought.
    Closed(Search),
}

impl DayAsk {
    /// What is asked of the room, where the day is from one second of UTC since 1970 to another,
    /// which is left out.
    pub fn between(self, from: i64, to: i64) -> Ask
        ensures { result ≡ between self from to }
    {
        match self {
            DayAsk::Times => Ask::Times(from, to),
            DayAsk::ClassTimes => Ask::ClassTimes(from, to),
            DayAsk::Closed(search) => Ask::Closed(from, to, search),
        }
    }
}

/// What a request asks of the room.
#[derive(Clone, Copy)]
pub enum Request {
    Ask(Ask),
    /// What is asked of a day, whose first and last instants the plan's time zone gives.
    OfDay(Day, DayAsk),
}

/// What a request asks for, by its target and its body.
///
/// A body is an object of JSON with exactly the members that the target takes; where it takes none,
/// an empty body serves too. Of equal names the last counts. Any other body is refused as
/// `BadBody`. The body of a target that takes none, as those of GET, is not looked at.
#[tactic(auto, unfolding(crate::specs::RequestTable::request_by))]
pub fn ask_of(alloc: Global, target: &Target, body: &[u8]) -> Result<Request, Refusal>
    ensures { MatchResult result (λ given. request_by target.now body.now ≡ Some given)
        (λ refusal. (refusal ≡ Memory) ⊎
        ((refusal ≡ BadBody) × (request_by target.now body.now ≡ None))) }
{
    match *target {
        Target::Incidents => Ok(Request::Ask(Ask::Incidents)),
        Target::Incident(number) => Ok(Request::Ask(Ask::Incident(number))),
        Target::Propose(number) => Ok(Request::Ask(Ask::Propose(number))),
        Target::Vehicles => Ok(Request::Ask(Ask::Vehicles)),
        Target::Reports(callsign) => Ok(Request::Ask(Ask::Reports(callsign))),
        Target::Queue => Ok(Request::Ask(Ask::Queue)),
        Target::Points => Ok(Request::Ask(Ask::Points)),
        Target::Loans => Ok(Request::Ask(Ask::Loans)),
        Target::Offers => Ok(Request::Ask(Ask::Offers)),
        Target::Times(day) => Ok(Request::OfDay(day, DayAsk::Times)),
        Target::ClassTimes(day) => Ok(Request::OfDay(day, DayAsk::ClassTimes)),
        Target::Closed(day, search) => Ok(Request::OfDay(day, DayAsk::Closed(search))),
        Target::Order => Ok(Request::Ask(Ask::Order)),
        Target::Job => Ok(Request::Ask(Ask::Job)),
        Target::Last => Ok(Request::Ask(Ask::Last)),
        _ => match ask_with_body(target, &fields_of(alloc, body)?) {
            Some(ask) => Ok(Request::Ask(ask)),
            None => Err(Refusal::BadBody),
        },
    }
}
