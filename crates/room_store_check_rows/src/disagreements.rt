//! What the rows of a room disagree in.
use room_place::plans::DivisionNumber;
use room_types::callsign::Callsign;
use room_types::codes::Status;
use room_types::numbers::{Number, PointNumber, PositionNumber};

/// What is wrong with the rows of a room, and of which row: its key, and what it disagrees in.
#[derive(Clone, Copy)]
pub enum Disagreement {
    /// The plan's division of this number has no row.
    NoDivision(u32),
    /// The division has a row, and is not in the plan.
    Division(DivisionNumber),
    /// The point's division is not in the plan.
    Point(DivisionNumber, PointNumber),
    /// The vehicle, which is at this status.
    Vehicle(Callsign, Status, VehicleFault),
    /// The loan is of no vehicle.
    Loan(Callsign),
    /// The offer is of no vehicle.
    Offer(Callsign),
    /// The assignment is of no vehicle.
    Assignment(Callsign),
    /// The vehicle's turn of this order.
    Turn(Callsign, Number, TurnFault),
    /// The vehicle's report of this number.
    Report(Callsign, Number, ReportFault),
    /// The position's call of this serial.
    Call(PositionNumber, Number, CallFault),
    /// The division's incident of this number.
    Incident(DivisionNumber, Number, IncidentFault),
}

/// What a vehicle disagrees in.
#[derive(Clone, Copy)]
pub enum VehicleFault {
    /// Its home is not in the plan.
    Home,
    /// Its holder is not in the plan.
    Holder,
    /// It is away from home, and has no loan.
    NoLoan,
    /// It has a loan, and is at home, or the loan is not from its home to its holder.
    Loan,
    /// It is offered, and has no offer.
    NoOffer,
    /// It has an offer, and is not offered, or the offer is not from its holder and home to another
    /// division of the plan.
    Offer,
    /// It is at status 2 to 5, and has no assignment.
    NoAssignment,
    /// It has an assignment, and is not at status 2 to 5, or the assignment is not of its holder
    /// and its last order.
    Assignment,
    /// It is at status 2 to 5, and has no open turn of its last order.
    NoTurn,
    /// It sent reports, and has none of its last number.
    NoReport,
    /// It has a post, and is not at status 1 or 6, or the post is no point of its holder.
    Post,
}

/// What a turn disagrees in.
#[derive(Clone, Copy)]
pub enum TurnFault {
    /// Its division is not in the plan.
    Division,
    /// No vehicle was given its order.
    Order,
    /// It is open, and not of its vehicle's last order or holder, or the vehicle is not at status 2
    /// to 5.
    Open,
    /// It is ended and of its vehicle's last order, and the vehicle is at status 2 to 5.
    Ended,
    /// Its vehicle's assignment of its order is for another incident.
    Incident,
    /// It is open, and its incident is not active.
    NotActive,
}

/// What a report disagrees in.
#[derive(Clone, Copy)]
pub enum ReportFault {
    /// Its division is not in the plan.
    Division,
    /// It is of no vehicle, or past its vehicle's last.
    Number,
}

/// What a call disagrees in.
#[derive(Clone, Copy)]
pub enum CallFault {
    /// Its incident is not there.
    NoIncident,
    /// Its incident is merged into another.
    Merged,
    /// Its incident was opened later.
    Early,
}

/// What an incident disagrees in.
#[derive(Clone, Copy)]
pub enum IncidentFault {
    /// Its division did not give its number.
    Number,
    /// It is not merged, and has no call of the moment at which it was opened.
    NoCall,
}

/// What is wrong with the terminals of a room. No token is shown.
#[derive(Clone, Copy)]
pub enum TerminalFault {
    /// Two terminals have one token, or they are not in the order of their tokens.
    Token,
    /// The vehicle has two crews' terminals.
    TwoCrews(Callsign),
    /// The vehicle has no crew's terminal.
    NoCrew(Callsign),
    /// A crew's terminal is of this vehicle, which is not there.
    Crew(Callsign),
    /// A desk's terminal is of this division, which is not in the plan.
    Desk(DivisionNumber),
}
