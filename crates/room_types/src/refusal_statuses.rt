//! Why a request is refused, and how a refusal is given: by number, by status and by name.
ghost use Rattle.std.specs.Prelude.{◌≡◌, Some};
ghost use Rattle.room_types.specs.RefusalStatuses.{refusal_number, refusal_status, refusal_name};
ghost use Rattle.room_types.specs.RefusalStatuses.{refusal_parts};
ghost use Rattle.room_types.specs.declared.refusal_statuses.Refusal.TheVariants.{Memory};

use std::alloc::{AllocError, AllocFailed};
use std::error::Error;
use std::fmt;

/// The methods that a path takes.
#[derive(Clone, Copy, Debug, PartialEq, Eq)]
pub enum Allow {
    GetHead,
    Post,
}

/// Why a request is refused. A refused request changes nothing.
#[derive(Clone, Copy, Debug, PartialEq, Eq)]
pub enum Refusal {
    /// The desk's division has no incident of this number.
    NoSuchIncident,
    /// The incident is closed or merged.
    IncidentNotOpen,
    /// The desk holds no vehicle of this callsign and has lent none.
    NoSuchVehicle,
    /// The desk has lent the vehicle to another division.
    VehicleLent,
    /// The vehicle's status does not allow it.
    WrongStatus,
    /// The vehicle's shift ends at this moment or before.
    ShiftOver,
    /// The incident lacks no vehicle of this kind.
    NotNeeded,
    /// A new need is below the number of vehicles that serve the incident already.
    BelowServed,
    /// A vehicle still has an order: this one, or one of the incident's.
    StillAssigned,
    /// An incident cannot be merged into itself.
    SameIncident,
    /// The desk's division has no standby point of this number.
    NoSuchPoint,
    /// The vehicle is on loan from another division.
    NotHome,
    /// No other division of the plan has this number.
    NoSuchDivision,
    /// No loan of this vehicle is there for the desk to recall or to give back.
    NoSuchLoan,
    /// The desk has no exceptional report of this vehicle and number left to clear.
    NoSuchException,
    /// The call's place lies in no division.
    OutsideArea,
    /// The position sent another call with this serial before.
    SerialReused,
    /// The vehicle sent another report with this number before.
    NumberReused,
    /// The last incident number or order number is given out.
    NumbersUsedUp,
    /// A vehicle of this callsign differs in home, kind or token.
    CallsignTaken,
    /// Another terminal has this token.
    TokenTaken,
    /// No offer of this vehicle is there for the desk to withdraw or to answer.
    NoSuchOffer,
    /// The message is no request of HTTP 1.0 or 1.1 that can be read.
    BadMessage,
    /// The head of the message does not end within its limit.
    HeadTooLong,
    /// The body of the message is announced above its limit.
    BodyTooLong,
    /// The sender waits for a go-ahead before it sends the body.
    Expectation,
    /// The body comes in a transfer coding.
    Coding,
    /// The room has no such path.
    NoPath,
    /// The path takes other methods, which the answer names.
    WrongMethod(Allow),
    /// The message names no terminal that the room knows.
    NoTerminal,
    /// The path is for another kind of terminal.
    WrongRole,
    /// The body does not hold what the path asks for.
    BadBody,
    /// Memory was refused; it may come at any step.
    Memory,
    /// A call of the database failed for another cause than memory, or gave a row that is none.
    Storage,
}

impl Refusal {
    /// The number of the refusal: 1 to 22 for what the room refuses, 30 to 42 for what is refused
    /// around it.
    pub fn number(&self) -> u8
        ensures { result ≡ refusal_number self.now }
    {
        self.number_status_name().0
    }

    /// The HTTP status of the answer (RFC 9110, section 15).
    pub fn status(&self) -> u16
        ensures { result ≡ refusal_status self.now }
    {
        self.number_status_name().1
    }

    /// The name of the refusal, as its variant is named.
    pub fn name(&self) -> &'static str
        ensures { result.now ≡ refusal_name self.now }
    {
        self.number_status_name().2
    }

    // Number, status and name.
    fn number_status_name(&self) -> (u8, u16, &'static str)
        ensures { refusal_parts self.now ≡ record {
          number = result.0;
          status = result.1;
          name = result.2.now;
        } }
    {
        match self {
            Refusal::NoSuchIncident => (1, 404, "NoSuchIncident"),
            Refusal::IncidentNotOpen => (2, 409, "IncidentNotOpen"),
            Refusal::NoSuchVehicle => (3, 404, "NoSuchVehicle"),
            Refusal::VehicleLent => (4, 409, "VehicleLent"),
            Refusal::WrongStatus => (5, 409, "WrongStatus"),
            Refusal::ShiftOver => (6, 409, "ShiftOver"),
            Refusal::NotNeeded => (7, 409, "NotNeeded"),
            Refusal::BelowServed => (8, 409, "BelowServed"),
            Refusal::StillAssigned => (9, 409, "StillAssigned"),
            Refusal::SameIncident => (10, 409, "SameIncident"),
            Refusal::NoSuchPoint => (11, 404, "NoSuchPoint"),
            Refusal::NotHome => (12, 409, "NotHome"),
            Refusal::NoSuchDivision => (13, 404, "NoSuchDivision"),
            Refusal::NoSuchLoan => (14, 404, "NoSuchLoan"),
            Refusal::NoSuchException => (15, 404, "NoSuchException"),
            Refusal::OutsideArea => (16, 409, "OutsideArea"),
            Refusal::SerialReused => (17, 409, "SerialReused"),
            Refusal::NumberReused => (18, 409, "NumberReused"),
            Refusal::NumbersUsedUp => (19, 409, "NumbersUsedUp"),
            Refusal::CallsignTaken => (20, 409, "CallsignTaken"),
            Refusal::TokenTaken => (21, 409, "TokenTaken"),
            Refusal::NoSuchOffer => (22, 404, "NoSuchOffer"),
            Refusal::BadMessage => (30, 400, "BadMessage"),
            Refusal::HeadTooLong => (31, 431, "HeadTooLong"),
            Refusal::BodyTooLong => (32, 413, "BodyTooLong"),
            Refusal::Expectation => (33, 417, "Expectation"),
            Refusal::Coding => (34, 501, "Coding"),
            Refusal::NoPath => (36, 404, "NoPath"),
            Refusal::WrongMethod(_) => (37, 405, "WrongMethod"),
            Refusal::NoTerminal => (38, 403, "NoTerminal"),
            Refusal::WrongRole => (39, 403, "WrongRole"),
            Refusal::BadBody => (40, 400, "BadBody"),
            Refusal::Memory => (41, 503, "Memory"),
            Refusal::Storage => (42, 503, "Storage"),
        }
    }
}

impl fmt::Display for Refusal {
    ghost output = { λ refusal. Some (refusal_name refusal) };

    fn fmt<W: fmt::Write>(&self, f: &mut fmt::Formatter<W>) -> fmt::Result {
        f.write_str(self.name())
    }
}

impl Error for Refusal {}

impl From<AllocError> for Refusal {
    ghost from_gives = { λ _ refusal. refusal ≡ Memory };

    fn from(_: AllocError) -> Refusal {
        Self::Memory
    }
}

impl<T: Drop> From<AllocFailed<T>> for Refusal {
    ghost from_gives = { λ _ refusal. refusal ≡ Memory };

    fn from(_: AllocFailed<T>) -> Refusal {
        Refusal::from(AllocError)
    }
}
