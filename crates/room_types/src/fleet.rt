//! The fleet that is enrolled, and the terminals that may ask.
use crate::asks::Who;
use crate::callsign::Callsign;
use crate::codes::Kind;
use crate::refusal_statuses::Refusal;
use crate::token::Token;
use room_place::places::Place;
use room_place::plans::DivisionNumber;

/// A vehicle to enrol, with its home division and its crew's token.
#[derive(Clone, Copy)]
pub struct FleetRow {
    pub callsign: Callsign,
    pub division: DivisionNumber,
    pub kind: Kind,
    pub place: Place,
    pub token: Token,
}

/// A terminal: whoever shows the token is this desk, crew or position.
#[derive(Clone, Copy)]
pub struct Terminal {
    pub token: Token,
    pub who: Who,
}

/// What became of a fleet row.
#[derive(Clone, Copy)]
pub enum RowFate {
    /// The vehicle and its crew's terminal are new.
    Added,
    /// The vehicle was there with the same home, kind and token; its place is not compared.
    Same,
    /// No such division, callsign taken, or token taken.
    Refused(Refusal),
}
